// What the step machine finds in a note: exactly the segments of the note, its web spans among them as the link rules name them.
// The statement stands in specs/Findings; what the machine leaves before data is joined, in specs/Pieces.
#![tactic(auto)]

ghost use Rattle.std.specs.Prelude.{◌≡◌};
ghost use Rattle.findings.specs.Findings.{FindsTheLinks};
ghost use Rattle.findings.specs.Pieces.{cuts_data};

// Whether data ends in front of this byte while a note is read: at a line ending, and at a letter with which a link may begin.
// The contract also holds what is proved of every note with every punctuation set, whatever the pushes and the allowances:
// once the end is done, the events, with neighbouring data joined, are those of the segments of the note.
pub fn cuts_data(byte: u8) -> bool
    ensures answer { result ≡ cuts_data byte }
    ensures finds_links { FindsTheLinks }
{
    matches!(byte, b'\n' | b'\r' | b'H' | b'h' | b'W' | b'w')
}
