// The worked examples, computed from the definitions of the rules and of settling.
#![tactic(auto)]

ghost use Rattle.std.specs.Prelude.{◌≡◌, true, length};
ghost use Rattle.examples.specs.Examples.{all_stand, examples};

// How many examples there are. Every one stands.
pub fn examples_stand() -> usize
    ensures count { result ≡ length examples }
    ensures stand { all_stand examples ≡ true }
{
    24
}
