// The samples: each logbook has the placard and the schedule of equipment that are stored beside it, and its file comes back
// through its text.
use crate::again::same_again;
use lines::{first, read_full, written_or_empty};
use paper::Placard;
use record::Record;
use std::fs::File;
use std::io;
use std::rt::Files;

// Room for a sample.
const TEXT: usize = 16384;

// Each logbook, its placard and its equipment.
const SAMPLES: [(&str, &str, &str); 12] = [
    ("astir_cs.txt", "astir_cs.placard", "astir_cs.equipment"),
    (
        "astir_cs_two_bars.txt",
        "astir_cs_two_bars.placard",
        "astir_cs_two_bars.equipment",
    ),
    (
        "astir_cs_read_twice.txt",
        "astir_cs_read_twice.placard",
        "astir_cs_read_twice.equipment",
    ),
    (
        "blanik_l13_normal.txt",
        "blanik_l13_normal.placard",
        "blanik_l13_normal.equipment",
    ),
    (
        "blanik_l13_aerobatic.txt",
        "blanik_l13_aerobatic.placard",
        "blanik_l13_aerobatic.equipment",
    ),
    (
        "twin_astir.txt",
        "twin_astir.placard",
        "twin_astir.equipment",
    ),
    ("discus.txt", "discus.placard", "discus.equipment"),
    (
        "discus_tail_lead.txt",
        "discus_tail_lead.placard",
        "discus_tail_lead.equipment",
    ),
    (
        "g102_astir_cs.txt",
        "g102_astir_cs.placard",
        "g102_astir_cs.equipment",
    ),
    (
        "g103_twin_ii.txt",
        "g103_twin_ii.placard",
        "g103_twin_ii.equipment",
    ),
    (
        "astir_cs_seat_back.txt",
        "astir_cs_seat_back.placard",
        "astir_cs_seat_back.equipment",
    ),
    (
        "astir_cs_refitted.txt",
        "astir_cs_refitted.placard",
        "astir_cs_refitted.equipment",
    ),
];

// What a file holds, at the front of a buffer; nothing of one that is not found.
fn read<'a>(rt: &(impl Files + Print), path: &str, out: &'a mut [u8]) -> io::Result<&'a [u8]> {
    match File::open(rt, path) {
        Ok(mut file) => read_full(&mut file, out),
        Err(_) => {
            print!(rt; " not found")?;
            Ok(b"")
        }
    }
}

// What a text is, and whether it is what a file holds.
fn compared(rt: &(impl Files + Print), name: &str, text: &[u8], path: &str) -> io::Result<()> {
    let mut buffer = [0u8; plate::LONGEST];
    let stored = read(rt, path, &mut buffer)?;
    let same = if text == stored { "" } else { "NOT " };
    print!(rt; " {name} {same}as stored,")
}

fn plated(rt: &(impl Files + Print), log: &Record, path: &str) -> io::Result<()> {
    let mut out = [0u8; plate::LONGEST];
    let Placard { bytes, rows, blank } = plate::placard(log, &mut out).unwrap_or_default();
    compared(rt, "placard", first(&out, bytes), path)?;
    print!(rt; " rows {rows} blank {blank},")
}

fn equipped(rt: &(impl Files + Print), log: &Record, path: &str) -> io::Result<()> {
    let mut out = [0u8; schedule::LONGEST];
    let text = written_or_empty(inventory::show, log, &mut out);
    compared(rt, "equipment", text, path)
}

fn filed(rt: &impl Print, log: &Record) -> io::Result<()> {
    let mut out = [0u8; file::LONGEST];
    let s = written_or_empty(file::write, log, &mut out);
    let again = if same_again(s) { " again" } else { "" };
    println!(rt; " file {}{again}", s.len())
}

fn sample(
    rt: &(impl Files + Print),
    logbook: &str,
    placard: &str,
    equipment: &str,
) -> io::Result<()> {
    print!(rt; "{logbook}:")?;
    let mut input = [0u8; TEXT];
    let log = match book::read(read(rt, logbook, &mut input)?) {
        Ok(log) => log,
        Err(failure) => {
            println!(rt; "{failure}")?;
            Record::fresh()
        }
    };
    plated(rt, &log, placard)?;
    equipped(rt, &log, equipment)?;
    filed(rt, &log)
}

pub fn run(rt: &(impl Files + Print)) -> io::Result<()> {
    for (logbook, placard, equipment) in SAMPLES {
        sample(rt, logbook, placard, equipment)?;
    }
    Ok(())
}
