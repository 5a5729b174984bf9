//! The lines of a story, one after the other.
use crate::compare::{same_bytes, same_lines, same_text};
use crate::machine::Machine;
use crate::running::Came;
use crate::sweep::{Also, Past, seen_after, sweep};
use std::alloc::{AllocError, Global};
use std::mem;
use txn_base::{FileId, Limits};
use txn_story::{
    Page, Script, Wrong, choices_of, fault_of, file_bytes, file_line, file_of, first_word, hex_of,
    lower, number, put_ended,
};

/// What the lines that come belong to.
#[derive(Clone, Copy)]
enum Asked {
    Nothing,
    /// A run.
    Run,
    /// A look at the disk, behind the last run with each call failing in turn.
    EachFault,
}

/// How far a story is told.
#[derive(Drop)]
pub struct Teller {
    alloc: Global,
    /// How many calls have failed in turn.
    pub failed: u64,
    /// The story with what came, where it is to be shown and not compared.
    pub page: Option<Page>,
    limits: Limits,
    world: Machine,
    asked: Asked,
    /// The run that is asked for, or the next one.
    script: Script,
    /// What it is to put, and how it is to end.
    want: Vec<u8>,
    ending: String,
    why: String,
    /// What else may be put, where a call failed.
    also: Vec<Also>,
    /// The last run.
    past: Option<Past>,
}

impl Teller {
    /// Before the first line of a story.
    pub fn new(alloc: Global, is_shown: bool) -> Result<Teller, AllocError> {
        let page = if is_shown {
            Some(Page::new(alloc))
        } else {
            None
        };
        Ok(Teller {
            alloc,
            failed: 0,
            page,
            limits: Limits::standard(),
            world: Machine::new(alloc)?,
            asked: Asked::Nothing,
            script: Script::new(alloc),
            want: Vec::new(alloc),
            ending: String::new(alloc),
            why: String::new(alloc),
            also: Vec::new(alloc),
            past: None,
        })
    }

    /// Goes on by a line.
    pub fn tell(&mut self, line: &str) -> Result<(), Wrong> {
        let (word, rest) = first_word(line);
        match word {
            "" if !rest.is_empty() => Err(Wrong::Line("a line begins with a space")),
            "" | "#" => self.show(line),
            ">" => {
                self.show(line)?;
                self.script.ask(rest, "\n")
            }
            ">-" => {
                self.show(line)?;
                self.script.ask(rest, "")
            }
            "<" => self.expect(line, rest, "\n"),
            "<-" => self.expect(line, rest, ""),
            "status" => {
                self.ending = self.of_run(rest)?;
                Ok(())
            }
            "why" => {
                self.why = self.of_run(rest)?;
                Ok(())
            }
            "also" => {
                self.show(line)?;
                self.allow(number(rest)? as usize)
            }
            _ => {
                self.finish()?;
                self.show(line)?;
                self.direct(word, rest)
            }
        }
    }

    /// What follows may be put too, where a call failed at this line.
    fn allow(&mut self, line: usize) -> Result<(), Wrong> {
        let put = Vec::new(self.alloc);
        self.also.push(Also { line, put })?;
        Ok(())
    }

    /// What is said of a run that is asked for.
    fn of_run(&self, rest: &str) -> Result<String, Wrong> {
        match self.asked {
            Asked::Run => Ok(String::from_str(self.alloc, rest)?),
            _ => Err(Wrong::Line("it belongs to no run")),
        }
    }

    fn show(&mut self, line: &str) -> Result<(), Wrong> {
        if let Some(page) = &mut self.page {
            page.add(line)?;
        }
        Ok(())
    }

    fn expect(&mut self, line: &str, text: &str, end: &str) -> Result<(), Wrong> {
        if !self.also.is_empty() {
            self.show(line)?;
        } else if let Some(page) = &mut self.page {
            page.say(line)?;
        }
        match self.also.last_mut() {
            Some(one) => put_ended(self.alloc, text, end, &mut one.put),
            None => put_ended(self.alloc, text, end, &mut self.want),
        }
    }

    /// Does what a line says that isn't within a run.
    fn direct(&mut self, word: &str, rest: &str) -> Result<(), Wrong> {
        match word {
            "limits" => lower(&mut self.limits, rest),
            "put" => self.put(rest),
            "see" => self.see(rest),
            "fault" => self.world.fail(fault_of(rest)?),
            "trap" => self.world.trap(fault_of(rest)?),
            "clock" => self.script.set_clock(rest),
            "source" => self.script.set_source(rest),
            "sink" => self.script.set_sink(rest),
            "run" => self.begin(rest),
            "each" if rest == "fault" => self.look(),
            "crash" => self.crash(rest),
            "or" => self.crash_again(rest),
            _ => Err(Wrong::Line("no such word")),
        }
    }

    fn crash(&mut self, rest: &str) -> Result<(), Wrong> {
        self.world.crash(&choices_of(self.alloc, rest)?)
    }

    fn crash_again(&mut self, rest: &str) -> Result<(), Wrong> {
        self.world.crash_again(&choices_of(self.alloc, rest)?)
    }

    fn put(&mut self, rest: &str) -> Result<(), Wrong> {
        let (name, frames) = file_line(rest)?;
        let bytes = file_bytes(self.alloc, frames)?;
        self.world.put(file_of(name)?, &bytes)
    }

    fn see(&mut self, rest: &str) -> Result<(), Wrong> {
        let (name, frames) = file_line(rest)?;
        let want = file_bytes(self.alloc, frames)?;
        let file = file_of(name)?;
        match &mut self.page {
            Some(page) => show_file(self.alloc, page, &self.world, name, file, &want),
            None => self.compare_files(name, file, &want),
        }
    }

    /// Each disk has this file.
    fn compare_files(&self, name: &str, file: FileId, want: &[u8]) -> Result<(), Wrong> {
        for disk in &self.world.disks {
            same_bytes(self.alloc, name, want, disk.file_bytes(file))?;
        }
        Ok(())
    }

    /// A run with these words is asked for.
    fn begin(&mut self, rest: &str) -> Result<(), Wrong> {
        self.script.set_words(rest)?;
        self.asked = Asked::Run;
        self.ending = String::from_str(self.alloc, "0")?;
        Ok(())
    }

    /// A look at the disk is asked for, with the words of the last run.
    fn look(&mut self) -> Result<(), Wrong> {
        if self.world.disks.len() != 1 {
            return Err(Wrong::Line("a run whose calls fail begins on one disk"));
        }
        let Some(past) = &self.past else {
            return Err(Wrong::Line("there was no run before"));
        };
        self.script.copy_words(&past.script.words)?;
        self.asked = Asked::EachFault;
        self.ending = String::from_str(self.alloc, "0")?;
        Ok(())
    }

    /// Does what is asked for, and compares.
    fn finish(&mut self) -> Result<(), Wrong> {
        match self.asked {
            Asked::EachFault => self.finish_look()?,
            Asked::Run if self.also.is_empty() => self.finish_run()?,
            Asked::Nothing
                if self.script.lines.is_empty() && self.want.is_empty() && self.also.is_empty() =>
                {}
            _ => return Err(Wrong::Line("a line belongs to no run")),
        }
        if let Some(page) = &mut self.page {
            page.flush()?;
        }
        Ok(())
    }

    /// Does what is asked for at the end of a story.
    pub fn end(&mut self) -> Result<(), Wrong> {
        self.finish()?;
        self.world.are_met()
    }

    fn finish_run(&mut self) -> Result<(), Wrong> {
        self.asked = Asked::Nothing;
        let before = self.world.copy()?;
        let past = Past {
            script: mem::replace(&mut self.script, Script::new(self.alloc)),
            limits: self.limits,
            before,
        };
        self.world.begin();
        let ran = self.run_on_each(&past);
        self.want.clear();
        self.why.clear();
        self.past = Some(past);
        ran
    }

    /// Runs it on each of the disks, and compares, or shows what came on the first.
    fn run_on_each(&mut self, past: &Past) -> Result<(), Wrong> {
        for i in 0..self.world.disks.len() {
            let came = self.run_on(i, past)?;
            self.see_run(i, &came)?;
        }
        Ok(())
    }

    fn see_run(&mut self, i: usize, came: &Came) -> Result<(), Wrong> {
        match &mut self.page {
            Some(page) => {
                if i == 0 {
                    page.fill(&came.put, came.ending.as_str(), came.why.as_str())
                } else {
                    Ok(())
                }
            }
            None => self.compare(came),
        }
    }

    /// Runs it on one of the disks.
    fn run_on(&mut self, i: usize, past: &Past) -> Result<Came, Wrong> {
        match self.world.disks.get_mut(i) {
            Some(disk) => past.run(self.alloc, &past.script.lines, disk),
            None => Err(Wrong::Line("there is no disk")),
        }
    }

    fn finish_look(&mut self) -> Result<(), Wrong> {
        self.asked = Asked::Nothing;
        let look = mem::replace(&mut self.script, Script::new(self.alloc));
        let looked = self.look_by(&look);
        self.want.clear();
        self.also.clear();
        looked
    }

    fn look_by(&mut self, look: &Script) -> Result<(), Wrong> {
        let Some(past) = &self.past else {
            return Err(Wrong::Line("there was no run before"));
        };
        let seen = seen_after(self.alloc, past, look, &past.script.lines)?;
        match &mut self.page {
            Some(page) => page.fill(&seen.put, "0", ""),
            None => {
                let count = count_failed(self.alloc, past, look, &self.want, &self.also, &seen)?;
                self.failed = self.failed.saturating_add(count);
                Ok(())
            }
        }
    }

    fn compare(&self, came: &Came) -> Result<(), Wrong> {
        same_lines(self.alloc, &self.want, &came.put)?;
        let ending = self.ending.as_str();
        same_text(self.alloc, "the status", ending, came.ending.as_str())?;
        same_text(
            self.alloc,
            "the cause",
            self.why.as_str(),
            came.why.as_str(),
        )
    }
}

/// Compares what a look sees where no call fails, and has each call fail in turn. How many there were.
fn count_failed(
    alloc: Global,
    past: &Past,
    look: &Script,
    want: &[u8],
    also: &[Also],
    seen: &Came,
) -> Result<u64, Wrong> {
    same_lines(alloc, want, &seen.put)?;
    match sweep(alloc, past, look, also)? {
        0 => Err(Wrong::Line("no call of the run can fail")),
        count => Ok(count),
    }
}

/// Shows the line of a file as it stands where it says what is there, and else with the bytes.
fn show_file(
    alloc: Global,
    page: &mut Page,
    world: &Machine,
    name: &str,
    file: FileId,
    want: &[u8],
) -> Result<(), Wrong> {
    for disk in world.disks.iter().take(1) {
        let came = disk.file_bytes(file);
        if came != want {
            let hex = hex_of(alloc, came)?;
            page.replace(format!(in alloc; "see {name} = {hex}")?)?;
        }
    }
    Ok(())
}
