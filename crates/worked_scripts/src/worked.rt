// A script whose output was worked out.
ghost use Rattle.std.specs.Prelude.{◌≡◌, IfOk, bytes_eq};
ghost use Rattle.scripts.specs.Scripts.{script_of};
ghost use Rattle.replays.specs.Plays.{printed};

use replays::play_script;
use std::alloc::{AllocError, Global};

#[derive(Clone, Copy)]
pub struct Worked<'a> {
    pub script: &'a str,
    pub output: &'a str,
}

impl<'a> Worked<'a> {
    // A name, LF, the script, a line of three dashes, and the output.
    pub fn from_section(section: &'a str) -> Option<Worked<'a>> {
        let (_name, text) = section.split_once("\n")?;
        let (script, output) = text.split_once("---\n")?;
        Some(Worked { script, output })
    }

    // The script is told as it was worked out.
    pub fn comes_out(self, heap: Global) -> Result<bool, AllocError>
        ensures { IfOk result (λ same. same ≡ bytes_eq (printed (script_of self.entry.script.now)) self.entry.output.now) }
    {
        let told = play_script(heap, self.script.as_bytes())?;
        Ok(told.as_str() == self.output)
    }
}
