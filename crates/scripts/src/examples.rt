// Scripts that were worked out.
ghost use Rattle.std.specs.Prelude.{◌≡◌, length};
ghost use Rattle.scripts.specs.ScriptExamples.{examples, EveryExampleComesOut};

// How many scripts stand in specs/ScriptExamples, each with what it says.
pub fn worked_scripts() -> usize
    ensures count { result ≡ length examples }
    ensures every_example_comes_out { EveryExampleComesOut }
{
    19
}
