//! Worked examples, proved as rows of one table.
#![tactic(auto)]

ghost use Rattle.std.specs.Prelude.{◌≡◌, length};
ghost use Rattle.std.specs.List.{AllByRecursion};
ghost use Rattle.worked.specs.Examples.{Holds, rows};

/// How many worked examples there are; each of them holds.
pub fn examples() -> usize
    ensures count { result ≡ length rows }
    ensures each { AllByRecursion Holds rows }
{
    20
}
