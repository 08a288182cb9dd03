// Lists of calls that were worked out, and event lists that are wrong.
ghost use Rattle.std.specs.Prelude.{◌≡◌, length};
ghost use Rattle.calls.specs.CallExamples.{scripts, wrong_lists, EveryScriptComesOut, EveryWrongListIsRefuted};
ghost use Rattle.calls.specs.Theorems.{RefusalsChangeNothing};

// How many lists of calls stand in specs/CallExamples. Each gets the answers that are listed there, and leaves the events.
// Of any call: where it is refused, it changes nothing.
pub fn worked_scripts() -> usize
    ensures count { result ≡ length scripts }
    ensures every_script_comes_out { EveryScriptComesOut }
    ensures refusals_change_nothing { RefusalsChangeNothing }
{
    7
}

// How many event lists stand there that look right. None of them is what is claimed.
pub fn refuted_lists() -> usize
    ensures count { result ≡ length wrong_lists }
    ensures every_wrong_list_is_refuted { EveryWrongListIsRefuted }
{
    20
}
