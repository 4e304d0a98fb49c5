//! `--diff`: reads two inputs whole, and has their differences written: those of their items, or of
//! the parts that the path leads to.

use crate::input::{block_len, read_all, read_first};
use crate::output::Target;
use crate::recognized::{Data, data_of, form_of};
use cbor_bytes::{Extent, extent};
use cbor_inputs::Input;
use cbor_inspect::{End, Naming, Step, skip_items};
use cbor_places::Piece;
use cborcat_arguments::Job;
use cborcat_messages::{
    Origin, Status, path_to, report_end, report_few, report_lost, say, say_out_of_memory,
};
use cborcat_views::{Compared, Views, Written, parts_in};
use std::alloc::AllocError;
use std::fs::File;
use std::io;
use std::io::Read;

/// Two inputs that are compared.
#[derive(Clone, Copy)]
pub struct Diff<'a> {
    pub rt: &'a HostRuntime,
    pub job: &'a Job<'a>,
    /// The names that are shown, and that a path may have.
    pub tables: Option<Naming<'a>>,
    /// How what differs is shown.
    pub views: Views<'a>,
}

impl<'a> Diff<'a> {
    /// Writes a line for each difference of the two inputs. The status is `Fine` if there is none,
    /// `Bad` if there are some, and `Trouble` if an input is not CBOR or cannot be read, or if the
    /// path leads nowhere in both.
    pub fn run(self, target: &mut Target) -> Status {
        let [first, second] = self.job.files.as_slice() else {
            return Status::Trouble;
        };
        let (Ok(old), Ok(new)) = (self.items_of(first), self.items_of(second)) else {
            return Status::Trouble;
        };
        let is_whole = self.job.show.steps.is_empty() && self.job.item.is_none();
        if is_whole {
            let old = Compared::new(old, self.job, self.tables);
            return self.compare(target, &old, &Compared::new(new, self.job, self.tables));
        }
        let (Ok(parts), Ok(others)) = (self.parts_of(&old), self.parts_of(&new)) else {
            return say_out_of_memory(self.rt, first);
        };
        if parts.bytes.is_empty() && others.bytes.is_empty() {
            self.say_lost(first, &old);
            self.say_lost(second, &new);
            return Status::Trouble;
        }
        self.compare(target, &parts, &others)
    }

    /// Writes what differs.
    fn compare(self, target: &mut Target, old: &Compared<'_>, new: &Compared<'_>) -> Status {
        match self.views.write_differences(target, old, new) {
            Ok((Written::Failed, _)) => Status::Trouble,
            Ok((_, true)) => Status::Bad,
            Ok((_, false)) => Status::Fine,
            Err(_) => say_out_of_memory(self.rt, "--diff"),
        }
    }

    /// The parts of items that the path leads to.
    fn parts_of(self, items: &[u8]) -> Result<Compared<'a>, AllocError> {
        let alloc = self.rt.alloc();
        let mut compared = Compared::new(Vec::new(alloc), self.job, self.tables);
        let (mut begins, mut number) = (0usize, 0usize);
        for _ in 0..items.len() {
            let bytes = items.get(begins..).unwrap_or(b"");
            let Extent::Item(len) = extent(bytes) else {
                break;
            };
            if self.job.item.is_none_or(|item| item == number) {
                let item = Piece { begins, bytes };
                self.push_parts(&mut compared, item.first(len), number)?;
            }
            begins = begins.saturating_add(len);
            number = number.saturating_add(1);
        }
        Ok(compared)
    }

    /// Adds the parts of an item that the path leads to. After a `*` each has a path of its own.
    fn push_parts(
        self,
        compared: &mut Compared<'a>,
        item: Piece<'_>,
        number: usize,
    ) -> Result<(), AllocError> {
        let alloc = self.rt.alloc();
        let steps = &self.job.show.steps;
        let has_each = steps.iter().any(|step| matches!(step, Step::Each));
        for part in &parts_in(alloc, (self.job, self.tables), item)? {
            let path = if has_each {
                path_to(alloc, item, part.span.start)?
            } else {
                String::from_str(alloc, self.job.path.trim_matches('/'))?
            };
            compared.push(*part, number, path)?;
        }
        Ok(())
    }

    /// Says that no item of an input has the part that the path leads to, and where it leads nowhere
    /// in the first item or in that of the number.
    fn say_lost(self, name: &str, items: &[u8]) {
        let origin = Origin {
            name,
            form: Input::Bytes,
            is_printed: false,
            text: b"",
            color: self.job.color,
            changed: false,
            holes: &[],
        };
        let (mut item, mut count) = (items, 0usize);
        for _ in 0..self.job.item.unwrap_or(0) {
            let Extent::Item(len) = extent(item) else {
                break;
            };
            item = item.get(len..).unwrap_or(b"");
            count = count.saturating_add(1);
        }
        match (extent(item), self.job.item) {
            (Extent::Item(len), _) => {
                let asked = (self.job, self.tables);
                let _ = report_lost(self.rt, asked, &origin, item.get(..len).unwrap_or(item));
            }
            (_, number) => report_few(self.rt, &origin, number.unwrap_or(0), count),
        }
    }

    /// The items of an input. A message says why there are none.
    fn items_of(self, name: &str) -> Result<Vec<u8>, Status> {
        let mut text = Vec::new(self.rt.alloc());
        let is_text = match self.read(name, &mut text) {
            Ok(is_text) => is_text,
            Err(error) => {
                say(self.rt, name, &error);
                return Err(Status::Trouble);
            }
        };
        let data = if is_text {
            data_of(self.rt, self.job, (name, &text))?
        } else {
            let bytes = Vec::from_slice(self.rt.alloc(), &text);
            Data::of(Input::Bytes, bytes.map_err(|_| Status::Trouble)?)
        };
        let origin = Origin {
            name,
            form: data.form,
            is_printed: data.printed.is_some(),
            text: &text,
            color: self.job.color,
            changed: false,
            holes: &[],
        };
        self.check(&origin, &data.bytes)?;
        Ok(data.bytes)
    }

    /// Reads an input to its end. Returns whether it may be a text.
    fn read(self, name: &str, text: &mut Vec<u8>) -> io::Result<bool> {
        if name == "-" {
            return self.read_all(name, &mut self.rt.stdin(), text);
        }
        let mut file = File::open(self.rt, name)?;
        self.read_all(name, &mut file, text)
    }

    /// The same of an open file.
    fn read_all<R: Read>(self, name: &str, input: &mut R, text: &mut Vec<u8>) -> io::Result<bool> {
        let most = block_len(self.rt, name);
        let bytes = read_first(input, text, form_of(self.job, name), most)?;
        read_all(input, text)?;
        Ok(bytes.is_none())
    }

    /// Says what is wrong with items, if something is.
    fn check(self, origin: &Origin, bytes: &[u8]) -> Result<(), Status> {
        let shown = skip_items(bytes, false);
        if shown.end == End::Done {
            return Ok(());
        }
        let left = Piece {
            begins: shown.used,
            bytes: bytes.get(shown.used..).unwrap_or(b""),
        };
        let _ = report_end(self.rt, origin, left, shown.end);
        Err(Status::Trouble)
    }
}
