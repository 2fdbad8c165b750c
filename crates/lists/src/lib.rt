// What grammar and planner do to a lent list.
#![tactic(auto)]

ghost use Rattle.std.specs.Prelude.{◌≡◌, ◌++◌, ◌-◌, length, take};
ghost use Rattle.rules.specs.Basics.{zeros};

// Zeros from `from` to the list's end.
pub fn clear_from(list: &mut [u32], from: usize)
    ensures { list.new ≡ take from list.old ++ zeros (length list.old - from) }
{
    if from < list.len() {
        list[from..].fill(0);
    }
}
