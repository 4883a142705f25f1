// The worked examples hold of the definitions.
#![tactic(auto)]

ghost use Rattle.std.specs.Prelude.{◌≡◌, length};
ghost use Rattle.worked.specs.Table.{table, AllHold};

// How many worked examples there are. Each of them holds.
pub fn examples_hold() -> usize
    ensures number { result ≡ length table }
    ensures hold { AllHold table }
{
    14
}
