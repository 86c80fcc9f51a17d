//! Trees in node memory, run: two bookings come to a van, it drives to the first and picks it up, and the second is
//! cancelled, under two rules on two kinds of roads; then the largest tree, with a dot for each position that its survey
//! visits.
#![tactic(auto)]

mod largest;
mod pair;

use growth::Ground;
use largest::{DottedRoads, grow_three, survey_four};
use orders::{Node, StopKind};
use pair::{Day, Ride, stop};
use roads::{Grid, RoadTable, Roads};
use std::io;
use stowage::{Load, Parcels, Passengers, Stowage};
use van_slab::{Itinerary, cheapest_order, order_at};

/// Prints an order: its cost and its stops.
fn print_order(rt: &HostRuntime, order: Itinerary) -> io::Result<()> {
    let cost = order.cost;
    print!(rt; "  cost {cost}:")?;
    for visit in order.visits.iter().take(order.stops as usize) {
        let kind = match visit.stop_kind() {
            StopKind::Pickup => "pickup",
            StopKind::DropOff => "drop",
        };
        print!(rt; " {} {kind} {}", visit.booking, visit.second)?;
    }
    println!(rt; "")
}

/// Prints what a slab lists: its orders, and the cheapest again.
fn print_slab(rt: &HostRuntime, slab: &[Node]) -> io::Result<()> {
    for order in (0..24).map_while(|i| order_at(slab, i)) {
        print_order(rt, order)?;
    }
    match cheapest_order(slab) {
        Some(plan) => {
            let cost = plan.cost;
            println!(rt; "  the plan costs {cost}")
        }
        None => println!(rt; "  no order"),
    }
}

/// Prints how many nodes a step has left, and what the slab then lists.
fn print_step(rt: &HostRuntime, step: &str, count: usize, slab: &[Node]) -> io::Result<()> {
    println!(rt; " {step}: {count} nodes")?;
    print_slab(rt, slab)
}

/// A van's day with two bookings.
fn run<R: Roads, S: Stowage>(
    rt: &HostRuntime,
    ground: Ground<R, S>,
    seven: Ride,
    eight: Ride,
) -> io::Result<()> {
    let mut day = Day::new(ground, seven, eight);
    let count = day.first();
    print_step(rt, "booking 7", count, day.slab())?;
    let count = day.second();
    print_step(rt, "booking 8 too", count, day.slab())?;
    let count = day.bound();
    print_step(rt, "at the pickup of 7", count, day.slab())?;
    let count = day.picked_up();
    print_step(rt, "7 picked up", count, day.slab())?;
    let count = day.cancelled();
    print_step(rt, "8 cancelled", count, day.slab())
}

/// A rider who waits until 600 and is to arrive by 3,600, with a ride of 150 seconds at most.
fn rider(from: u32, to: u32) -> Ride {
    Ride {
        pickup: stop(from, 0, 600),
        dropoff: stop(to, 0, 3_600),
        load: Load {
            first: 1,
            second: 0,
        },
        ride_limit: 150,
    }
}

/// A parcel of so many litres that is ready at 500.
fn parcel(from: u32, to: u32, litres: u16) -> Ride {
    Ride {
        pickup: stop(from, 500, 1_000),
        dropoff: stop(to, 0, 3_600),
        load: Load {
            first: litres,
            second: 10,
        },
        ride_limit: 604_800,
    }
}

fn passengers_on_a_grid(rt: &HostRuntime) -> io::Result<()> {
    let Ok(grid) = Grid::new(4, 1, 100, 1) else {
        return Ok(());
    };
    println!(rt; "passengers on a grid")?;
    let ground = Ground {
        roads: &grid,
        rule: &Passengers,
    };
    run(rt, ground, rider(1, 2), rider(2, 1))
}

fn parcels_on_a_table(rt: &HostRuntime) -> io::Result<()> {
    let seconds = vec![in rt.alloc(); 0, 100, 250, 120, 0, 200, 240, 210, 0]?;
    let Ok(table) = RoadTable::new(3, seconds) else {
        return Ok(());
    };
    println!(rt; "parcels on a table")?;
    let ground = Ground {
        roads: &table,
        rule: &Parcels,
    };
    run(rt, ground, parcel(1, 2, 4_000), parcel(2, 0, 3_000))
}

fn largest_tree(rt: HostRuntime) -> io::Result<()> {
    println!(rt; "the largest tree: first with three bookings, then surveyed with a fourth")?;
    let mut nodes = vec![in rt.alloc(); Node::BLANK; 14_728]?;
    let roads = DottedRoads { rt };
    let ground = Ground {
        roads: &roads,
        rule: &Parcels,
    };
    let three = grow_three(ground, nodes.as_mut_slice());
    println!(roads.rt; " {three} nodes")?;
    let four = survey_four(ground, nodes.as_slice());
    println!(roads.rt; " {} nodes", four.count)
}

fn main(rt: HostRuntime) -> io::Result<()> {
    passengers_on_a_grid(&rt)?;
    parcels_on_a_table(&rt)?;
    largest_tree(rt)
}
