//! A list of calls, given to a new dispatcher.
ghost use Rattle.std.specs.Prelude.{◌≡◌, min, length, take, drop, Err, MatchResult};
ghost use Rattle.fleet.specs.Terms.{terms_of};
ghost use Rattle.outcomes.specs.Outcomes.{make_call};
ghost use Rattle.outcomes.specs.Runs.{Ran};

use crate::Dispatcher;
use fleet::{Answer, Call, Refusal};
use growth::Ground;
use orders::Node;
use roads::Roads;
use stowage::Stowage;

/// Makes a dispatcher and gives it the calls in turn, each answer into its place; tells how many were given, which is as many
/// as there are places for. Nobody else reaches the nodes meanwhile.
pub fn run<R: Roads, S: Stowage>(
    ground: Ground<R, S>,
    vans: u32,
    open_limit: u32,
    nodes: &mut [Node],
    calls: &[Call],
    answers: &mut [Answer],
) -> Result<usize, Refusal>
    ensures { MatchResult result
        (λ count. (count ≡ min (length calls.now) (length answers.old)) × Ran (terms_of R.Roads S.Stowage ground.entry) vans open_limit nodes.old (take count calls.now) (take count answers.new) nodes.new × (drop count answers.new ≡ drop count answers.old))
        (λ f. (make_call vans open_limit (length nodes.old) ≡ Err f) × (nodes.new ≡ nodes.old) × (answers.new ≡ answers.old)) }
{
    let mut dispatcher = Dispatcher::new(ground, vans, open_limit, nodes)?;
    let count = calls.len().min(answers.len());
    // Kept: by index, since a proof knows nothing of what is written through a zip.
    for i in 0..count {
        answers[i] = dispatcher.obey(nodes, calls[i]);
    }
    Ok(count)
}
