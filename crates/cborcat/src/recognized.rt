//! Finds the form of an input from the arguments, the file name or the text, and the bytes that the
//! text stands for. Says so if it is a dump or code, if another form reads the text, too, or if no
//! form does.

use cbor_inputs::{
    HexFault, Input, Pasted, Printed, Recognized, Refusal, looks_like, printed_bytes, recognize,
};
use cbor_inspect::{End, skip_items};
use cborcat_arguments::Job;
use cborcat_messages::{
    Status, report_refusal, say_named_bytes, say_none, say_out_of_memory, say_pasted, say_printed,
    say_taken,
};

/// What a text stands for.
#[derive(Drop)]
pub struct Data {
    /// The form that it was read in.
    pub form: Input,
    /// The bytes that it stands for.
    pub bytes: Vec<u8>,
    /// What it is, if it is bytes as a program printed or has them; the form is hex then.
    pub printed: Option<Printed>,
    /// Whether it was taken for hex, and its bytes are no items: it may have been meant as
    /// notation.
    pub may_be_notation: bool,
    /// Whether it goes on behind the bytes, in a way that is no hex.
    pub is_cut: bool,
}

impl Data {
    /// The data of a form that is known.
    pub fn of(form: Input, bytes: Vec<u8>) -> Data {
        Data {
            form,
            bytes,
            printed: None,
            may_be_notation: false,
            is_cut: false,
        }
    }
}

/// The form of an input that the arguments name, or else the name of its file.
pub fn form_of(job: &Job, name: &str) -> Option<Input> {
    if job.from.is_some() {
        return job.from;
    }
    if name.ends_with(".hex") {
        Some(Input::Hex)
    } else if name.ends_with(".edn") || name.ends_with(".diag") || name.ends_with(".json") {
        Some(Input::Diag)
    } else {
        None
    }
}

/// The data of an input that was read to its end, and the form that it was read in: the form that
/// is named, or the one that is recognized. A message says why there is none.
pub fn data_of(rt: &HostRuntime, job: &Job, input: (&str, &[u8])) -> Result<Data, Status> {
    let data = match form_of(job, input.0) {
        Some(form) => data_in(rt, job, input, form)?,
        None => match data_printed(rt, input)? {
            Some(data) => data,
            None => recognized(rt, job, input)?,
        },
    };
    if data.bytes.is_empty() && !data.is_cut && !job.show.one {
        say_none(rt, input);
    }
    Ok(data)
}

/// The data of an input in this form. What is no hex, but bytes as programs print and have them, is
/// taken for hex.
fn data_in(rt: &HostRuntime, job: &Job, input: (&str, &[u8]), form: Input) -> Result<Data, Status> {
    match form.decode(rt.alloc(), input.1) {
        Ok(bytes) => Ok(Data::of(form, bytes)),
        Err(Refusal::Hex(fault)) => match data_printed(rt, input)? {
            Some(data) => Ok(data),
            None => refused(rt, job, input, Refusal::Hex(fault)),
        },
        Err(refusal) => refused(rt, job, input, refusal),
    }
}

/// The data of an input that is bytes as a program printed or has them, if it is that: a line says
/// so. In a file that is named as bytes they have to be items.
fn data_printed(rt: &HostRuntime, input: (&str, &[u8])) -> Result<Option<Data>, Status> {
    let (name, text) = input;
    let (printed, bytes) = match printed_bytes(rt.alloc(), text) {
        Ok(Some(found)) => found,
        Ok(None) => return Ok(None),
        Err(_) => return Err(say_out_of_memory(rt, name)),
    };
    if is_named_bytes(name) && skip_items(&bytes, false).end != End::Done {
        return Ok(None);
    }
    if say_printed(rt, input, printed).is_err() {
        return Err(say_out_of_memory(rt, name));
    }
    Ok(Some(Data {
        printed: Some(printed),
        ..Data::of(Input::Hex, bytes)
    }))
}

/// Says why an input does not have its form. With `--partial`, the data of hex that has an odd
/// digit is that of the pairs before it.
fn refused(
    rt: &HostRuntime,
    job: &Job,
    input: (&str, &[u8]),
    refusal: Refusal,
) -> Result<Data, Status> {
    let (name, text) = input;
    let status = report_refusal(rt, job.color, input, refusal);
    let pairs = match refusal {
        Refusal::Hex(HexFault::Odd(at)) if job.partial => text.get(..at).unwrap_or(b""),
        _ => return Err(status),
    };
    match Input::Hex.decode(rt.alloc(), pairs) {
        Ok(bytes) => Ok(Data {
            is_cut: true,
            ..Data::of(Input::Hex, bytes)
        }),
        Err(Refusal::Memory) => Err(say_out_of_memory(rt, name)),
        Err(_) => Err(status),
    }
}

/// The data of an input in the form that it has. If none takes it, the form that reads furthest is
/// taken, where that has bytes, unless the input looks like something else.
fn recognized(rt: &HostRuntime, job: &Job, input: (&str, &[u8])) -> Result<Data, Status> {
    let (name, text) = input;
    let refusal = match recognize(rt.alloc(), text) {
        Ok(found) => return taken(rt, job, input, found),
        Err(refusal) => refusal,
    };
    if refusal != Refusal::Memory && is_named_bytes(name) {
        return data_in(rt, job, input, Input::Bytes);
    }
    if let Refusal::Items { form, .. } = refusal
        && looks_like(text).is_none()
    {
        return data_in(rt, job, input, form);
    }
    refused(rt, job, input, refusal)
}

/// The data of an input in the form that was recognized. Hex that is no items is bytes in a file
/// that is named so.
fn taken(
    rt: &HostRuntime,
    job: &Job,
    input: (&str, &[u8]),
    found: Recognized,
) -> Result<Data, Status> {
    let (name, text) = input;
    let is_whole = found.form != Input::Hex || skip_items(&found.bytes, false).end == End::Done;
    if !is_whole && is_named_bytes(name) {
        say_named_bytes(rt, name);
        return data_in(rt, job, input, Input::Bytes);
    }
    if is_whole && say_taken(rt, name, text, &found).is_err() {
        return Err(say_out_of_memory(rt, name));
    }
    if looks_like(text) == Some(Pasted::Dump) {
        say_pasted(rt, Some(Pasted::Dump));
    }
    Ok(Data {
        may_be_notation: !is_whole,
        ..Data::of(found.form, found.bytes)
    })
}

/// Whether the name of a file says that it has bytes.
pub fn is_named_bytes(name: &str) -> bool {
    name.ends_with(".cbor") || name.ends_with(".cose") || name.ends_with(".cwt")
}
