// Worked examples of the written forms: specs/FormExamples.
ghost use Rattle.std.specs.Prelude.{◌≡◌, length};
ghost use Rattle.written.specs.FormExamples.{examples, EveryExampleComesOut};

// How many notes stand there with their saved list and their marked copy. Each of these comes out as it stands there, and so
// does each number and each listing.
#[tactic(auto, using(crate::proofs::Computed::every_example_comes_out))]
pub fn worked_examples() -> usize
    ensures count { result ≡ length examples }
    ensures every_example_comes_out { EveryExampleComesOut }
{
    15
}
