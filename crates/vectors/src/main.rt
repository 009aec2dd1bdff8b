// The messages that 264-21 and 264-04 publish and the range record of APN-031, and the lines of document 01's sample table that are to be run, through the
// library: what it reads of them is printed, and held to what the second reader prints.
#![tactic(auto)]

use division::Next;
use novatel::{Corrected, Record};
use refusal::Refusal;
use std::io::{Read, Write};
use std::{fs, io};
use stream::{Answer, Reply};
use text::Text;

// ---- lines

// A word and a number that may be negative.
fn put_signed(text: &mut Text, word: &[u8], z: i64) {
    text.put_all(word);
    if z < 0 {
        text.put(b'-');
    }
    text.put_number(z.unsigned_abs(), b'\n');
}

// A refusal by its number.
fn put_refused(text: &mut Text, refusal: Refusal) {
    text.put_count(b"refused ", refusal::number(refusal), b'\n');
}

// A message after its gap: its line and its rows.
fn put_given(text: &mut Text, gap: u64, position: u64, message: &[u8]) {
    text.put_count(b"gap ", gap, b'\n');
    lines::put_line(text, position, message);
    lines::put_rows(text, position, message);
}

// A recording by the plain reader, started at 0 and then at each message's end: there are no more messages than bytes.
fn put_recording(text: &mut Text, recording: &[u8]) {
    let mut start = 0;
    for _ in 0..=recording.len() {
        match division::next_message(recording, start) {
            Ok(
                Next::Message {
                    position,
                    length,
                    gap,
                },
            ) => {
                let message = division::message_part(recording, start);
                put_given(text, gap as u64, position as u64, message);
                start = position + length;
            }
            Ok(Next::End { gap }) => {
                text.put_count(b"gap ", gap as u64, b'\n');
                return;
            }
            Err(_) => return,
        }
    }
}

fn put_check(text: &mut Text, message: &[u8]) {
    let number = match macm::check(message) {
        Ok(_) => 0,
        Err(refusal) => refusal::number(refusal),
    };
    text.put_count(b"check ", number, b'\n');
}

fn put_reply(text: &mut Text, reply: Reply, output: &[u8]) {
    match reply.answer {
        Ok(Answer::NeedsMore) => text.put_all(b"needs more\n"),
        // `front` asks for no bound; a slice would need one proved of a feed's answer.
        Ok(Answer::Message { length, gap, .. }) => {
            put_given(text, gap, gap, text::front(output, length as usize))
        }
        Ok(Answer::End { gap }) => text.put_count(b"end gap ", gap, b'\n'),
        Err(refusal) => put_refused(text, refusal),
    }
}

// ---- the published messages

// What a file of data/ has, as far as the buffer has room; nothing where it cannot be opened, and the reason is said.
fn load<'a>(rt: &HostRuntime, name: &str, buffer: &'a mut [u8]) -> &'a [u8] {
    match fs::open(rt, name) {
        Ok(mut file) => read_full(&mut file, buffer),
        Err(error) => {
            report::say_failure(rt, name, &error);
            &buffer[..0]
        }
    }
}

// Reads until the buffer is full, the input ends or a read fails.
fn read_full<'a, R: Read>(reader: &mut R, buffer: &'a mut [u8]) -> &'a [u8] {
    let mut count = 0;
    // A read brings as many bytes as it likes, so this is no `for`.
    while count < buffer.len() {
        match reader.read(&mut buffer[count..]) {
            Ok(0) | Err(_) => break,
            Ok(got) => count += got,
        }
    }
    &buffer[..count]
}

fn put_name(text: &mut Text, name: &str) {
    text.put_all(name.as_bytes());
    text.put(b'\n');
}

fn put_published(rt: &HostRuntime, text: &mut Text, name: &str) {
    let mut buffer = [0u8; 1024];
    put_name(text, name);
    put_recording(text, load(rt, name, &mut buffer));
}

// Where 264-04 has its two messages: the check of each, as it is printed.
fn put_printed_checks(rt: &HostRuntime, text: &mut Text) {
    let mut recording = [0u8; 1024];
    load(rt, "264-04-table-4.bin", &mut recording);
    put_check(text, &recording[25..184]);
    put_check(text, &recording[253..412]);
}

// ---- the lines to be run

// The ranges of E2: the least, that of 264-21's first observation, the longest.
fn put_ranges(text: &mut Text) {
    for pseudorange in [1, 2058626148, 4294967295] {
        text.put_count(b"range ", track::range_of(pseudorange), b'\n');
    }
}

// S12 by the stream reader: fed whole, then finished twice.
fn put_calls(text: &mut Text) {
    let mut window = [0u8; 6136];
    let mut output = [0u8; 6136];
    let recording = b"MACMAC2\x00\x00\x00\x0E\xA0\x0C\x90\x40\x7C\x10\x00\x1E";
    let reply = stream::feed(stream::fresh(), recording, &mut window, &mut output);
    put_reply(text, reply, &output);
    let reply = stream::finish(reply.state, &mut window, &mut output);
    put_reply(text, reply, &output);
    let reply = stream::finish(reply.state, &mut window, &mut output);
    put_reply(text, reply, &output);
}

// ---- NovAtel's range record

fn put_fields(text: &mut Text, r: Record) {
    text.put_all(b"status ");
    text.put_hex(r.status, 8);
    put_signed(text, b"\ndoppler ", r.doppler);
    text.put_count(b"range ", r.range, b'\n');
    put_signed(text, b"adr ", r.adr);
    let range = r.range_deviation;
    text.put_count(b"range_deviation ", range, b'\n');
    text.put_count(b"range_mm ", novatel::deviation_of_range(range), b'\n');
    let adr = r.adr_deviation;
    text.put_count(b"adr_deviation ", adr, b'\n');
    text.put_count(b"adr_512ths ", novatel::deviation_of_adr(adr), b'\n');
    text.put_count(b"prn ", r.prn, b'\n');
    text.put_count(b"lock ", r.lock, b'\n');
    text.put_count(b"cn0 ", r.cn0, b'\n');
    text.put_count(b"reserved ", r.reserved, b'\n');
}

fn put_correction(text: &mut Text, bytes: &[u8]) {
    match novatel::corrected_adr(bytes) {
        Ok(Corrected { rolls, adr }) => {
            put_signed(text, b"rolls ", rolls);
            put_signed(text, b"corrected ", adr);
        }
        Err(refusal) => put_refused(text, refusal),
    }
}

fn put_reading(text: &mut Text, bytes: &[u8]) {
    match novatel::read_record(bytes) {
        Ok(record) => put_fields(text, record),
        Err(refusal) => put_refused(text, refusal),
    }
}

// The record that APN-031 publishes, and its corrected ADR.
fn put_record(rt: &HostRuntime, text: &mut Text, name: &str) {
    let mut bytes = [0u8; 24];
    load(rt, name, &mut bytes);
    put_name(text, name);
    put_reading(text, &bytes);
    put_correction(text, &bytes);
}

// The corrected ADR of a record that has nothing but a range and an ADR.
fn put_rolls(text: &mut Text, range: u64, adr: i64) {
    let mut bytes = [0u8; 24];
    let fields = Record {
        status: 0,
        doppler: 0,
        range,
        adr,
        range_deviation: 0,
        adr_deviation: 0,
        prn: 0,
        lock: 0,
        cn0: 20,
        reserved: 0,
    };
    match novatel::write_record(&mut bytes, fields) {
        Ok(_) => put_correction(text, &bytes),
        Err(refusal) => put_refused(text, refusal),
    }
}

// Rolls that doubles get wrong, and the longest range with the least and the largest ADR.
fn put_far(text: &mut Text) {
    put_rolls(text, 28222569217, -1342202899);
    put_rolls(text, 22179300586, -104046687);
    put_rolls(text, 68719476735, -2147483648);
    put_rolls(text, 68719476735, 2147483647);
}

// Halves, and one less in size.
fn put_halves(text: &mut Text) {
    for adr in [1073741824, -1073741824, 1073741823, -1073741823] {
        put_rolls(text, 0, adr);
    }
}

fn main(rt: HostRuntime) -> io::Result<()> {
    let mut buffer = [0u8; 16384];
    let mut text = Text::new(&mut buffer);
    put_published(&rt, &mut text, "264-21-figure-1.bin");
    put_published(&rt, &mut text, "264-04-table-4.bin");
    put_printed_checks(&rt, &mut text);
    put_published(&rt, &mut text, "264-04-table-4-by-the-rule.bin");
    put_ranges(&mut text);
    text.put_all(b"A then B\n");
    put_recording(
        &mut text,
        b"MAC2\x00\x00\x00\x0E\xA0\x0C\x90\x40\x7C\x10\x00\x1EMACM\x02\x00\x0E\xA0\x0C\x90\x40\x7C\x10\x00\x1C",
    );
    text.put_all(b"S12\n");
    put_calls(&mut text);
    put_record(&rt, &mut text, "apn-031-rangecmp.bin");
    text.put_all(b"rolls and corrected\n");
    put_far(&mut text);
    put_halves(&mut text);
    rt.stdout().write_all(text.written())
}
