// The link rules: what is proved of the web spans that they name, and examples of them and of mail addresses.
ghost use Rattle.std.specs.Prelude.{◌≡◌, length, sum_by};
ghost use Rattle.rules.specs.Examples.{tables, EveryExampleComesOut, EveryCutComesOut, EveryTrailComesOut};
ghost use Rattle.rules.specs.SegmentLaws.{SegmentsAreLawful, SpansAreLawful};
ghost use Rattle.rules.specs.Web.{is_web};
ghost use Rattle.rules.specs.WebLaws.{WebSpansAreLawful};

use text::SpanKind;

// Whether the link rules give spans of this kind; the other kinds are of mail.
// The contract also holds what is proved of every note with every punctuation set: the laws of its web spans, and those of
// its segments, the cut into web spans, line endings and data.
pub fn is_web(kind: SpanKind) -> bool
    ensures answer { result ≡ is_web kind }
    ensures web_spans_are_lawful { WebSpansAreLawful }
    ensures segments_are_lawful { SegmentsAreLawful }
    ensures spans_are_lawful { SpansAreLawful }
{
    matches!(kind, SpanKind::Www | SpanKind::Protocol)
}

// How many notes the tables of examples have. In each of them the rules find what the table says, and so it is with the
// examples of segments and of trails.
pub fn count_examples() -> usize
    ensures answer { result ≡ sum_by length tables }
    ensures every_example_comes_out { EveryExampleComesOut }
    ensures every_cut_comes_out { EveryCutComesOut }
    ensures every_trail_comes_out { EveryTrailComesOut }
{
    115
}
