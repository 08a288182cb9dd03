// The forms that can be asked for.
ghost use Rattle.std.specs.Prelude.{◌≡◌, map, string_bytes};
ghost use Rattle.reader.specs.View.{view};
ghost use Rattle.written.specs.Forms.{form_answer, form_written};
ghost use Rattle.listing.specs.Forms.{asked_by, named, written_as};

use edit_map::EditMap;
use readings::HouseReader;
use text::Fault;
use written::{listing_lines, marked_copy, saved_list};

#[derive(Clone, Copy)]
pub enum Form {
    Listing,
    SavedList,
    MarkedCopy,
}

impl Form {
    // None where the words ask for no form.
    pub fn from_words(words: &[String]) -> Option<Form>
        ensures { result ≡ asked_by (map string_bytes words.now) }
    {
        match words {
            [] => Some(Form::Listing),
            [word] => Form::from_word(word.as_str()),
            _ => None,
        }
    }

    fn from_word(word: &str) -> Option<Form>
        ensures { result ≡ named word.now }
    {
        match word {
            "--saved" => Some(Form::SavedList),
            "--marked" => Some(Form::MarkedCopy),
            _ => None,
        }
    }

    // Writes the form of what a reader holds to the front of `out`, and answers how many bytes that is. A marked copy is made by
    // edits in `map`.
    //
    // Refused are 12 unless the reader is resolved, and 16 an `out` that is too short.
    pub fn write(
        self,
        map: &mut EditMap,
        reader: &HouseReader,
        out: &mut [u8],
    ) -> Result<usize, Fault>
        ensures answer { result ≡ form_answer (written_as self) (view reader.now) out.old }
        ensures written { out.new ≡ form_written (written_as self) (view reader.now) out.old }
    {
        match self {
            Form::Listing => listing_lines(reader, out),
            Form::SavedList => saved_list(reader, out),
            Form::MarkedCopy => marked_copy(map, reader, out),
        }
    }
}
