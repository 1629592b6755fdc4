// A script as an iterator of its commands.
ghost use Rattle.std.specs.Prelude.{◌≡◌, length};
ghost use Rattle.std.specs.Iterator.{at_most};
ghost use Rattle.script.specs.Reads.{left, coming, Comes};

use crate::command::Command;
use crate::fault::ScriptFault;
use crate::reader::Script;

// The commands from here to the script's end or to its first refusal, which comes last.
#[derive(Drop)]
pub struct Commands<'a> {
    script: Script<'a>,
}

impl<'a> IntoIterator for Script<'a> {
    type Item = Result<Command<'a>, ScriptFault>;

    type IntoIter = Commands<'a>;

    ghost into_iter_gives = { λ script commands. coming commands ≡ left script };

    fn into_iter(self) -> Commands<'a> {
        Commands { script: self }
    }
}

impl<'a> Iterator for Commands<'a> {
    type Item = Result<Command<'a>, ScriptFault>;

    ghost next_gives = { λ before answer after. Comes answer (coming before) (coming after) };

    ghost remaining = { λ commands. at_most (length (coming commands)) };

    fn next(&mut self) -> Option<Result<Command<'a>, ScriptFault>> {
        let answer = self.script.next();
        if answer.is_err() {
            self.script = Script::new(&[]);
        }
        answer.transpose()
    }
}
