//! What was measured, and the lines that tell it.
use crate::timing::faults::Fault;
use crate::timing::figures::Hundredths;
use crate::timing::memory::peak;
use crate::timing::spread::Spread;
use crate::timing::words::USAGE;
use std::io;

/// Prints how the program is called.
pub fn tell_usage(rt: &HostRuntime) -> Result<(), Fault> {
    println!(rt; "{USAGE}")?;
    Ok(())
}

/// Prints the greatest memory so far, in kB. The words say when that is.
pub fn tell_peak(rt: &HostRuntime, when: &str) -> Result<(), Fault> {
    let count = peak(rt);
    println!(rt; "peak kB{when}: {count}")?;
    Ok(())
}

/// Prints how many tiles a document has.
pub fn tell_tiles(rt: &HostRuntime, tiles: usize) -> Result<(), Fault> {
    println!(rt; "tiles: {tiles}")?;
    Ok(())
}

/// Prints nanoseconds for each byte of a text: the median, the best and the worst.
pub fn tell_bytes(
    rt: &HostRuntime,
    name: &str,
    spread: &Spread,
    bytes: usize,
) -> Result<(), Fault> {
    let median = Hundredths::of(spread.median, bytes as u128);
    let best = Hundredths::of(spread.best, bytes as u128);
    let worst = Hundredths::of(spread.worst, bytes as u128);
    println!(rt;
        "{name} median ns per byte: {median}\n{name} best ns per byte: {best}\n{name} worst ns per byte: {worst}"
    )?;
    Ok(())
}

/// Prints how many matches `run` asked for, and its median.
pub fn tell_anew(rt: &HostRuntime, asked: u128, median: u128) -> Result<(), Fault> {
    println!(rt; "run matches asked: {asked}\nrun median ns: {median}")?;
    Ok(())
}

/// The sizes of a text and of a definition.
#[derive(Clone, Copy)]
pub struct Sizes {
    /// Of the text.
    pub bytes: usize,
    pub rules: usize,
    pub states: usize,
    pub tables: usize,
    pub rows: usize,
    /// Rules that no table has.
    pub asked: usize,
    /// How long the definition's build took, in nanoseconds.
    pub built: u128,
}

impl Sizes {
    /// Prints the sizes.
    pub fn tell(&self, rt: &HostRuntime) -> Result<(), Fault> {
        let Sizes {
            bytes,
            rules,
            states,
            tables,
            rows,
            asked,
            built,
        } = *self;
        let ms = Hundredths::of(built, 1_000_000);
        println!(rt;
            "bytes: {bytes}\nrules: {rules}\nstates: {states}\ntables: {tables}\nrows of tables: {rows}\nrules without a table: {asked}\nbuild ms: {ms}"
        )?;
        Ok(())
    }
}

/// Prints how many cells of tables were looked at, if that is known. The words say by what.
fn tell_cells(rt: &HostRuntime, by: &str, looked: Option<usize>) -> io::Result<()> {
    match looked {
        Some(cells) => println!(rt; "cells looked at{by}: {cells}"),
        None => println!(rt; "cells looked at{by}: unknown"),
    }
}

/// What a run counts.
#[derive(Clone, Copy)]
pub struct Counts {
    /// The place, in bytes, up to which the text was lexed.
    pub end: usize,
    pub lexemes: usize,
    pub tiles: usize,
    /// Matches asked for.
    pub asked: u128,
    /// The most runs of equal neighbours in a stack of states.
    pub peak: usize,
    /// Cells of tables that were looked at, if that is known.
    pub looked: Option<usize>,
    /// How many that may be.
    pub most: usize,
}

impl Counts {
    /// Prints the counts, the time for each match that was asked for, and the times for each byte of a text.
    pub fn tell(&self, rt: &HostRuntime, runs: &Spread, bytes: usize) -> Result<(), Fault> {
        let Counts {
            end,
            lexemes,
            tiles,
            asked,
            peak,
            looked,
            most,
        } = *self;
        let each = Hundredths::of(runs.median, asked);
        println!(rt;
            "bytes lexed: {end}\nlexemes: {lexemes}\ntiles: {tiles}\nmatches asked: {asked}\npeak entries: {peak}\nns per match asked: {each}"
        )?;
        tell_cells(rt, "", looked)?;
        println!(rt; "cells at most: {most}")?;
        tell_bytes(rt, "run", runs, bytes)
    }
}

/// What a scanner counts.
#[derive(Clone, Copy)]
pub struct Scanned {
    /// Tiles with an id.
    pub lexemes: usize,
    /// Cells of tables that were looked at, if that is known.
    pub looked: Option<usize>,
}

impl Scanned {
    /// Prints the counts, and the times for each byte of a text.
    pub fn tell(&self, rt: &HostRuntime, scans: &Spread, bytes: usize) -> Result<(), Fault> {
        let Scanned { lexemes, looked } = *self;
        println!(rt; "lexemes by a scanner: {lexemes}")?;
        tell_cells(rt, " by a scanner", looked)?;
        tell_bytes(rt, "scan", scans, bytes)
    }
}

/// What lexing again after an edit counts.
#[derive(Clone, Copy)]
pub struct Relexed {
    /// Tiles that were cut anew.
    pub lexed: usize,
    /// Matches asked for.
    pub asked: u128,
    /// Cells of tables that were looked at, if that is known.
    pub looked: Option<usize>,
}

impl Relexed {
    /// Prints the counts and the times under this name, and how many times as long `run` takes, whose median is `anew`.
    pub fn tell(
        &self,
        rt: &HostRuntime,
        name: &str,
        spread: &Spread,
        anew: u128,
    ) -> Result<(), Fault> {
        let Relexed {
            lexed,
            asked,
            looked,
        } = *self;
        let Spread {
            median,
            best,
            worst,
        } = *spread;
        let faster = Hundredths::of(anew, median);
        println!(rt;
            "{name} tiles cut anew: {lexed}\n{name} matches asked: {asked}\n{name} median ns: {median}\n{name} best ns: {best}\n{name} worst ns: {worst}\n{name} times faster than run: {faster}"
        )?;
        print!(rt; "{name} ")?;
        tell_cells(rt, "", looked)?;
        Ok(())
    }
}

/// The most that a key took, of several typed at a place.
#[derive(Clone, Copy)]
pub struct Typed {
    /// The most tiles that a key cut anew.
    pub most: usize,
    /// The most cells of tables that a key looked at.
    pub cells: usize,
}

impl Typed {
    /// Prints the counts and the times of the keys under this name.
    pub fn tell(&self, rt: &HostRuntime, name: &str, spread: &Spread) -> Result<(), Fault> {
        let Typed { most, cells } = *self;
        let Spread {
            median,
            best,
            worst,
        } = *spread;
        println!(rt;
            "{name} most tiles cut anew for a key: {most}\n{name} most cells looked at for a key: {cells}\n{name} median ns for a key: {median}\n{name} best ns for a key: {best}\n{name} worst ns for a key: {worst}"
        )?;
        Ok(())
    }
}
