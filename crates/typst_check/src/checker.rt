//! A run over files, folders and standard input.

use crate::request::{Request, VERSION};
use crate::sarif::Log;
use crate::words::Word;
use std::alloc::{AllocError, Global};
use std::cmp::Ordering;
use std::fs::{self, DirEntry, File};
use std::io::{self, Read};
use typst_report::check::{Fault, check, tell};
use typst_report::form::{Form, Format, Options};
use typst_report::names::names_in;
use typst_report::tally::Tally;

/// The name that stands for standard input.
const STANDARD_INPUT: &str = "-";

/// What the name of a document ends with.
const EXTENSION: &str = ".typ";

/// A run over files, with the greatest status so far.
#[derive(Drop)]
pub struct Checker<'r> {
    rt: &'r HostRuntime,
    alloc: Global,
    options: Options,
    input_name: &'r str,
    /// The log that is printed, if what is found is printed as one.
    log: Option<Log>,
    tally: Tally,
    status: u8,
}

/// What lies in a folder.
#[derive(Drop)]
struct Below {
    path: String,
    is_folder: bool,
}

impl Below {
    /// Whether it is a folder or a document.
    fn is_wanted(&self) -> bool {
        self.is_folder || self.path.as_str().ends_with(EXTENSION)
    }
}

impl<'r> Checker<'r> {
    /// A run for a request, in which nothing was checked yet.
    pub fn new(rt: &'r HostRuntime, alloc: Global, request: &Request<'r>) -> Checker<'r> {
        Checker {
            rt,
            alloc,
            options: request.options,
            input_name: request.input_name,
            log: log_of(alloc, request),
            tally: Tally::new(),
            status: 0,
        }
    }

    /// Prints what comes before all findings, and gives the status: 0, or 2 if it can't be printed.
    pub fn begin(&mut self) -> u8 {
        let (mut output, mut errors) = (self.rt.stdout(), self.rt.stderr());
        match &self.log {
            Some(log) => log.begin(&mut output, &mut errors, &mut self.tally),
            None => 0,
        }
    }

    /// Checks what a name stands for: standard input, all documents below a folder, or a file.
    pub fn check_named(&mut self, name: &str) -> Result<(), AllocError> {
        if self.tally.is_unheard {
            return Ok(());
        }
        if name == STANDARD_INPUT {
            self.check_input();
            return Ok(());
        }
        if self.is_folder(name) {
            return self.check_folder(name);
        }
        self.check_file(name);
        Ok(())
    }

    /// Checks what the names in a list stand for, which is a file or standard input.
    pub fn check_listed(&mut self, list: &str) -> anyhow::Result<()> {
        let bytes = match self.read_list(list) {
            Ok(bytes) => bytes,
            Err(reason) => {
                self.tell(list, Fault::NotRead(reason));
                return Ok(());
            }
        };
        for name in &names_in(self.alloc, bytes.as_slice())? {
            let word = Word::of_bytes(self.alloc, name.as_slice())?;
            if word.is_odd {
                self.tell_odd(word.text.as_str());
            } else {
                self.check_named(word.text.as_str())?;
            }
        }
        Ok(())
    }

    /// Reports a name that isn't UTF-8.
    pub fn tell_odd(&mut self, name: &str) {
        self.tell(name, Fault::OddName);
    }

    /// Prints what comes after all findings, sums them up, and gives the status.
    pub fn finish(mut self) -> u8 {
        if !self.tally.is_unheard {
            self.end_log();
            self.sum_up();
        }
        self.status
    }

    fn end_log(&mut self) {
        let (mut output, mut errors) = (self.rt.stdout(), self.rt.stderr());
        let is_whole = self.status < 2;
        if let Some(log) = &self.log {
            let status = log.end(is_whole, &mut output, &mut errors, &mut self.tally);
            self.status = self.status.max(status);
        }
    }

    fn sum_up(&self) {
        let is_short = matches!(self.options.form, Form::Findings(Format::Short { .. }));
        let has_any = self.tally.errors > 0 || self.tally.warnings > 0;
        if is_short && has_any {
            if let Ok(line) = self.tally.summary(self.alloc) {
                let _ = eprint!(self.rt; "{line}");
            }
        }
    }

    fn read_list(&self, list: &str) -> io::Result<Vec<u8>> {
        if list == STANDARD_INPUT {
            return read_whole(self.alloc, &mut self.rt.reader());
        }
        read_whole(self.alloc, &mut File::open(self.rt, list)?)
    }

    fn check_input(&mut self) {
        let (name, mut input) = (self.input_name, self.rt.reader());
        self.check_text(name, &mut input);
    }

    fn check_file(&mut self, name: &str) {
        match File::open(self.rt, name) {
            Ok(mut input) => self.check_text(name, &mut input),
            Err(reason) => self.tell(name, Fault::NotOpened(reason)),
        }
    }

    /// Checks the text that a reader gives, under a name.
    fn check_text<R: Read>(&mut self, name: &str, input: &mut R) {
        let (mut output, mut errors) = (self.rt.stdout(), self.rt.stderr());
        let status = match &mut self.log {
            Some(log) => log.check(
                self.options,
                name,
                input,
                &mut output,
                &mut errors,
                &mut self.tally,
            ),
            None => check(
                self.alloc,
                self.options,
                name,
                input,
                &mut output,
                &mut errors,
                &mut self.tally,
            ),
        };
        self.status = self.status.max(status);
    }

    /// Checks all documents below a folder, by their names.
    fn check_folder(&mut self, folder: &str) -> Result<(), AllocError> {
        let mut pending = Vec::new(self.alloc);
        self.list(folder, &mut pending)?;
        for _ in 0..u64::MAX {
            let Some(next) = pending.pop() else {
                break;
            };
            if self.tally.is_unheard {
                break;
            }
            if next.is_folder {
                self.list(next.path.as_str(), &mut pending)?;
            } else {
                self.check_file(next.path.as_str());
            }
        }
        Ok(())
    }

    /// Adds the documents and folders in a folder to those that are still to be looked at, of which the last comes
    /// first.
    fn list(&mut self, folder: &str, pending: &mut Vec<Below>) -> Result<(), AllocError> {
        let entries = match fs::read_dir(self.rt, folder) {
            Ok(entries) => entries,
            Err(reason) => {
                self.tell(folder, Fault::NotOpened(reason));
                return Ok(());
            }
        };
        let mut below = Vec::new(self.alloc);
        for entry in entries {
            self.add_entry(folder, entry, &mut below)?;
        }
        below.sort_by(last_first)?;
        pending.append(&mut below)
    }

    /// Adds what the entry of a folder stands for, if it is a document or a folder.
    fn add_entry(
        &mut self,
        folder: &str,
        entry: io::Result<DirEntry>,
        below: &mut Vec<Below>,
    ) -> Result<(), AllocError> {
        match below_of(self.alloc, entry) {
            Ok(one) => {
                if one.is_wanted() {
                    below.push(one)?;
                }
            }
            Err(reason) => self.tell(folder, Fault::NotRead(reason)),
        }
        Ok(())
    }

    /// Whether the name is that of a folder whose documents are checked. A page is made of one file.
    fn is_folder(&self, name: &str) -> bool {
        if self.options.form == Form::Page {
            return false;
        }
        match fs::metadata(self.rt, name) {
            Ok(metadata) => metadata.is_dir(),
            Err(_) => false,
        }
    }

    fn tell(&mut self, name: &str, fault: Fault) {
        let status = tell(self.alloc, &mut self.rt.stderr(), name, fault);
        self.status = self.status.max(status);
    }
}

/// The log that is asked for.
fn log_of(alloc: Global, request: &Request) -> Option<Log> {
    if request.is_log {
        Some(Log::new(alloc, VERSION))
    } else {
        None
    }
}

/// All that a reader gives.
fn read_whole<R: Read>(alloc: Global, input: &mut R) -> io::Result<Vec<u8>> {
    let mut bytes = Vec::new(alloc);
    input.read_to_end(&mut bytes)?;
    Ok(bytes)
}

/// The order by paths, the last first.
fn last_first(one: &Below, other: &Below) -> Ordering {
    let by_path = other.path.cmp(&one.path);
    by_path.then(other.is_folder.cmp(&one.is_folder))
}

/// What an entry stands for. A link to a folder isn't one.
fn below_of(alloc: Global, entry: io::Result<DirEntry>) -> io::Result<Below> {
    let entry = entry?;
    let is_folder = entry.file_type()?.is_dir();
    let path = path_of(alloc, &entry)?;
    Ok(Below { path, is_folder })
}

fn path_of(alloc: Global, entry: &DirEntry) -> Result<String, AllocError> {
    String::from_str(alloc, entry.path().as_str())
}
