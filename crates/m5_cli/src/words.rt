//! The words of a command line, and the job that they name.

ghost use Rattle.std.specs.Prelude.{◌≡◌, [], ◌∷◌, ◌++◌, OnOk, OnErr};
ghost use Rattle.m5_cli.specs.Words.{job_of};

use std::alloc::{AllocError, Global};
use std::marker::Model;

/// What the program is to do.
#[derive(Clone, Copy, Debug, PartialEq, Eq)]
pub enum Job {
    /// Say whether a program is accepted.
    Check,
    /// Run a program by a script, and write the trace.
    Run,
    /// Run any program by a script as its meaning says, by substitution, and write the trace.
    Ref,
    /// Write out the instances of a program's generic declarations.
    Expand,
    /// Say whether a trace is one of a program's run by a script.
    Replay,
}

/// The words after the program's name, which contracts see as a list of texts.
#[derive(Debug, Drop)]
pub struct Words {
    held: Vec<String>,
}

impl Model for Words {
    ghost use Rattle.std.specs.Prelude.{List, ℕ};
    ghost use Rattle.std.specs.Prelude.{map, string_bytes};

    ghost Value = { List (List ℕ) };

    ghost view = { λ w. map (λ s. string_bytes s) w.held.items };
}

impl Words {
    /// No words yet.
    pub fn make(alloc: Global) -> Words
        ensures { result ≡ [] }
    {
        Words {
            held: Vec::new(alloc),
        }
    }

    /// Puts a word at the end. Want of memory is the only error, and leaves the words as they were.
    pub fn push(&mut self, word: &str) -> Result<(), AllocError>
        ensures ok { OnOk result (self.new ≡ self.old ++ word.now ∷ []) }
        ensures err { OnErr result (self.new ≡ self.old) }
    {
        let alloc = *self.held.allocator();
        let copied = String::from_str(alloc, word)?;
        self.held.push(copied)?;
        Ok(())
    }
}

/// The job that the words name, or none where they are no listed spelling.
pub fn read_words(words: &Words) -> Option<Job>
    ensures { result ≡ job_of words.now }
{
    match words.held.as_slice() {
        [word] if word.as_str() == "check" => Some(Job::Check),
        [word] if word.as_str() == "run" => Some(Job::Run),
        [word] if word.as_str() == "ref" => Some(Job::Ref),
        [word] if word.as_str() == "expand" => Some(Job::Expand),
        [word] if word.as_str() == "replay" => Some(Job::Replay),
        _ => None,
    }
}
