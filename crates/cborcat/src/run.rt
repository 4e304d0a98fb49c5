//! `run` runs the program: it reads each input in turn and converts it, or compares two inputs
//! (`--diff`). It returns the exit status.

use crate::cddl::{Cddl, cddl_of};
use crate::conversion::Conversion;
use crate::diff::Diff;
use crate::input::{block_len, read_first};
use crate::naming::{shown_of, tables_of};
use crate::next::Next;
use crate::output::{Target, close, may_be_replaced, open};
use crate::recognized::{data_of, form_of};
use cbor_inputs::{Input, Pasted, looks_like};
use cbor_inspect::{Form, Naming};
use cbor_marks::Marks;
use cborcat_arguments::{Job, View};
use cborcat_messages::{
    Origin, Status, label, say, say_no_form, say_no_text, say_notation, say_pasted,
};
use cborcat_views::Views;
use std::fs::File;
use std::io;
use std::io::{IsTerminal, Read};

/// Does what the arguments ask for, and returns the exit status.
pub fn run<'a>(rt: &'a HostRuntime, job: &'a Job<'_>) -> u8 {
    if matches!(job.view, View::Items | View::Encoded(_))
        && job.show.style.form == Form::Bytes
        && job.is_on_screen()
        && rt.stdout().is_terminal()
    {
        let _ = eprintln!(rt;
            "cborcat: bytes are not written to a terminal; use -o FILE or a pipe"
        );
        return Status::Trouble.number();
    }
    let names = match tables_of(rt, job) {
        Ok(names) => names,
        Err(status) => return status.number(),
    };
    let tables = match shown_of(rt, job, &names) {
        Ok(tables) => tables,
        Err(status) => return status.number(),
    };
    let cddl = match cddl_of(rt, job) {
        Ok(cddl) => cddl,
        Err(status) => return status.number(),
    };
    let Some(mut target) = open(rt, job.output) else {
        return Status::Trouble.number();
    };
    let marks = Marks::new(rt.alloc());
    let mut run = Runner {
        rt: &*rt,
        job: &*job,
        target: &mut target,
        tables,
        cddl: cddl.as_ref(),
        marks: &marks,
        status: Status::Fine,
    };
    run.inputs();
    let status = run.status;
    let whole = status == Status::Fine || (status == Status::Bad && is_whole_if_bad(job));
    if close(rt, target, job.output, whole) {
        status.number()
    } else {
        Status::Trouble.number()
    }
}

/// Whether the output is whole though the status is bad: two inputs that differ are no failure, and
/// `--partial` shows a fault.
fn is_whole_if_bad(job: &Job<'_>) -> bool {
    matches!(job.view, View::Diff) || job.partial
}

/// A run of the program.
#[derive(Drop)]
pub struct Runner<'a> {
    /// The runtime.
    pub rt: &'a HostRuntime,
    /// What the arguments ask for.
    pub job: &'a Job<'a>,
    /// Where the output goes.
    pub target: &'a mut Target,
    /// The names that are shown.
    pub tables: Option<Naming<'a>>,
    /// The CDDL that items have to fit.
    pub cddl: Option<&'a Cddl<'a>>,
    /// Where the tokens are marked of what is shown.
    pub marks: &'a Marks,
    /// How it went so far.
    pub status: Status,
}

impl Runner<'_> {
    /// Records the status of a part.
    fn ended(&mut self, status: Status) {
        self.status = self.status.or(status);
    }

    /// Writes what differs between the two inputs.
    fn diff(&mut self) {
        let diff = Diff {
            rt: self.rt,
            job: self.job,
            tables: self.tables,
            views: Views::new(self.rt, self.job, self.tables, self.marks),
        };
        let status = diff.run(self.target);
        self.ended(status);
    }

    /// Converts each input, or compares them.
    fn inputs(&mut self) {
        if let View::Diff = self.job.view {
            self.diff();
            return;
        }
        if let Some(text) = self.job.text {
            let mut bytes = text.as_bytes();
            let _ = self.input("-x", &mut bytes);
        } else if self.job.files.is_empty() {
            let _ = self.input("-", &mut self.rt.stdin());
        }
        for name in &self.job.files {
            if self.file(name) == Next::Nothing {
                break;
            }
        }
    }

    /// Converts the input of a name.
    fn file(&mut self, name: &str) -> Next {
        if name == "-" {
            return self.input(name, &mut self.rt.stdin());
        }
        if self.job.in_place && !may_be_replaced(self.rt, name) {
            self.ended(Status::Trouble);
            return Next::NextInput;
        }
        match File::open(self.rt, name) {
            Ok(file) if self.job.in_place => self.replace(name, file),
            Ok(mut file) => self.input(name, &mut file),
            Err(error) => self.cannot_read(name, &error),
        }
    }

    /// Converts a file, and puts what is written of it in its place if all went well.
    fn replace(&mut self, name: &str, file: File) -> Next {
        let Some(mut target) = open(self.rt, Some(name)) else {
            self.ended(Status::Trouble);
            return Next::NextInput;
        };
        let mut run = Runner {
            target: &mut target,
            status: Status::Fine,
            rt: self.rt,
            job: self.job,
            tables: self.tables,
            cddl: self.cddl,
            marks: self.marks,
        };
        let mut file = file;
        let next = run.input(name, &mut file);
        let status = run.status;
        drop(run);
        // Some systems replace no file that is open.
        drop(file);
        self.ended(status);
        if status == Status::Bad {
            let _ = eprintln!(self.rt; "cborcat: {} is unchanged", label(name));
        }
        if !close(self.rt, target, Some(name), status == Status::Fine) {
            self.ended(Status::Trouble);
        }
        next
    }

    /// Says that an input cannot be read.
    fn cannot_read(&mut self, name: &str, error: &io::Error) -> Next {
        say(self.rt, name, error);
        if error.kind() == io::ErrorKind::NotFound
            && let Some(option) = self.job.option_before(name)
        {
            let _ = eprintln!(self.rt; "  {option}={name}? A value of {option} follows the =");
        }
        self.ended(Status::Trouble);
        Next::NextInput
    }

    /// Converts an input: as it arrives, once it is known to be bytes.
    fn input<R: Read>(&mut self, name: &str, input: &mut R) -> Next {
        let mut bytes = Vec::new(self.rt.alloc());
        let most = block_len(self.rt, name);
        let from = form_of(self.job, name);
        let at = match read_first(input, &mut bytes, from, most) {
            Ok(Some(at)) => at,
            Ok(None) => return self.text(name, &bytes),
            Err(error) => return self.cannot_read(name, &error),
        };
        let (form, text) = (Input::Bytes, b"".as_slice());
        let color = self.job.color;
        let origin = Origin {
            name,
            form,
            is_printed: false,
            text,
            color,
            changed: !self.job.changes.is_empty(),
            holes: &[],
        };
        let pasted = looks_like(&bytes);
        let (next, end) = self.items(&origin, bytes, input);
        if end == Ended::BadAtOnce && at > 0 {
            say_no_text(self.rt, at);
        }
        self.say_bytes(pasted, end);
        next
    }

    /// Converts the items of these bytes, and of those that the input still has. Also returns how
    /// that ended.
    fn items<R: Read>(&mut self, origin: &Origin, first: Vec<u8>, input: &mut R) -> (Next, Ended) {
        let mut conversion = Conversion::new(self, origin, first);
        let next = conversion.all(input);
        let (status, any) = (conversion.status, conversion.has_some());
        drop(conversion);
        self.ended(status);
        let end = match status {
            Status::Bad if any => Ended::Bad,
            Status::Bad => Ended::BadAtOnce,
            Status::Fine | Status::Trouble => Ended::Other,
        };
        (next, end)
    }

    /// Says what bytes may be that are not CBOR. DER, and what is behind a byte order mark, may
    /// begin with items.
    fn say_bytes(&self, pasted: Option<Pasted>, end: Ended) {
        let begins = matches!(pasted, Some(Pasted::Der | Pasted::Mark));
        if end == Ended::BadAtOnce || (end == Ended::Bad && begins) {
            say_pasted(self.rt, pasted);
        }
    }

    /// Converts an input that was read to its end, in the form that is named or recognized.
    fn text(&mut self, name: &str, text: &[u8]) -> Next {
        let data = match data_of(self.rt, self.job, (name, text)) {
            Ok(data) => data,
            Err(status) => {
                self.ended(status);
                return Next::NextInput;
            }
        };
        let is_bytes = data.form == Input::Bytes || text.is_empty();
        if self.job.in_place && !self.job.is_form_named && !is_bytes {
            self.ended(say_no_form(self.rt, name, data.form));
            return Next::NextInput;
        }
        let mut none = b"".as_slice();
        let color = self.job.color;
        let origin = Origin {
            name,
            form: data.form,
            is_printed: data.printed.is_some(),
            text,
            color,
            changed: !self.job.changes.is_empty(),
            holes: &[],
        };
        let pasted = looks_like(&data.bytes);
        let (next, end) = self.items(&origin, data.bytes, &mut none);
        self.say_bytes(pasted, end);
        if data.is_cut {
            self.ended(Status::Bad);
        }
        if data.may_be_notation && end != Ended::Other {
            let status = say_notation(self.rt, name, text);
            self.ended(status);
        }
        next
    }
}

/// How the conversion of an input ended.
#[derive(Clone, Copy, PartialEq, Eq)]
enum Ended {
    /// It is not CBOR, and does not even begin with an item.
    BadAtOnce,
    /// It is not CBOR, or the path leads nowhere.
    Bad,
    /// It is CBOR, or there is other trouble.
    Other,
}
