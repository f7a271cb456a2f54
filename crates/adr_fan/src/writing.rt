//! Writing the readers' parts.
ghost use Rattle.std.specs.Prelude.{◌≡◌, true, OnOk, OnErr};
ghost use Rattle.std.specs.Io.KnownBytes.{Appends};
ghost use Rattle.adr_script.specs.Logs.{has_write_failed};
ghost use Rattle.adr_resolver.specs.Fan.{reader_line};
ghost use Rattle.adr_fan.specs.Levels.{WritesPart};
ghost use Rattle.adr_fan.specs.Parts.{text_or, texts, all_texts};

use crate::reading::Reply;
use adr_script::{Fault, WriteLog, write_fully};
use itoa::Buffer;
use std::io::Write;

const NO_MEMORY: &[u8] = b"refused 99 NoMemory\n";

/// Writes a reply.
fn write_reply<W: Write>(writes: &mut WriteLog, writer: &mut W, reply: &Reply) -> Result<(), Fault>
    ensures ok { OnOk result (Appends (W.contents writer.old) (W.contents writer.new) (text_or reply.now.text)) }
    ensures err { OnErr result (WritesPart (W.contents writer.old) (W.contents writer.new) (text_or reply.now.text)) }
    ensures unfailed { OnOk result (has_write_failed writes.new ≡ has_write_failed writes.old) }
    ensures fault { OnErr result ((result ≡ Err Fault.Writing) × (has_write_failed writes.new ≡ true)) }
{
    match &reply.text {
        Some(text) => write_fully(writes, writer, text.as_slice()),
        None => write_fully(writes, writer, NO_MEMORY),
    }
}

/// Writes a reader's replies, in order.
fn write_replies<W: Write>(
    writes: &mut WriteLog,
    writer: &mut W,
    replies: &[Reply],
) -> Result<(), Fault>
    ensures ok { OnOk result (Appends (W.contents writer.old) (W.contents writer.new) (texts replies.now)) }
    ensures err { OnErr result (WritesPart (W.contents writer.old) (W.contents writer.new) (texts replies.now)) }
    ensures unfailed { OnOk result (has_write_failed writes.new ≡ has_write_failed writes.old) }
    ensures fault { OnErr result ((result ≡ Err Fault.Writing) × (has_write_failed writes.new ≡ true)) }
{
    for reply in replies {
        write_reply(writes, writer, reply)?;
    }
    Ok(())
}

/// Writes the line before a reader's replies.
fn write_line<W: Write>(writes: &mut WriteLog, writer: &mut W, reader: usize) -> Result<(), Fault>
    ensures ok { OnOk result (Appends (W.contents writer.old) (W.contents writer.new) (reader_line reader)) }
    ensures err { OnErr result (WritesPart (W.contents writer.old) (W.contents writer.new) (reader_line reader)) }
    ensures unfailed { OnOk result (has_write_failed writes.new ≡ has_write_failed writes.old) }
    ensures fault { OnErr result ((result ≡ Err Fault.Writing) × (has_write_failed writes.new ≡ true)) }
{
    let mut buffer = Buffer::new();
    write_fully(writes, writer, b"reader ")?;
    write_fully(writes, writer, buffer.format(reader).as_bytes())?;
    write_fully(writes, writer, b"\n")
}

/// Writes all parts, each behind its reader's line.
pub(crate) fn write_parts<W: Write>(
    writes: &mut WriteLog,
    writer: &mut W,
    parts: &[Vec<Reply>],
) -> Result<(), Fault>
    ensures ok { OnOk result (Appends (W.contents writer.old) (W.contents writer.new) (all_texts 0 parts.now)) }
    ensures err { OnErr result (WritesPart (W.contents writer.old) (W.contents writer.new) (all_texts 0 parts.now)) }
    ensures unfailed { OnOk result (has_write_failed writes.new ≡ has_write_failed writes.old) }
    ensures fault { OnErr result ((result ≡ Err Fault.Writing) × (has_write_failed writes.new ≡ true)) }
{
    for (reader, replies) in parts.iter().enumerate() {
        write_line(writes, writer, reader)?;
        write_replies(writes, writer, replies.as_slice())?;
    }
    Ok(())
}
