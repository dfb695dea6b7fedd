ghost use Rattle.std.specs.Prelude.{◌≡◌, ◌+◌, ◌≤◌, ◌++◌, IfOk, OnOk, None, Some, length, slice_set};
ghost use Rattle.gd_words.specs.declared.limits.TheConstants.{MOST_PROCESSES};
ghost use Rattle.shown_sectors.specs.Sectors.{sector_count};
ghost use Rattle.shown_sectors.specs.Tables.{blank_row, blank_rows, rows_with, rows_after, row_sectors, rows_sectors};

use crate::sectors::SectorWords;
use gd_words::{List, NoMemory, Sector};
use std::alloc::Global;
use std::marker::Model;
use tal_tree::{Kind, ProcessSpec, Shown};

/// The sectors of a process, with the words of those that have been written.
#[derive(Drop)]
pub struct Row {
    sectors: Vec<Option<Sector>>,
}

impl Model for Row {
    ghost use Rattle.std.specs.Prelude.{◌≤◌, List as Items, ℤ, Option, length};

    ghost Value = { Items (Option (Items ℤ)) };

    ghost view = { λ row. row.sectors.items };

    ghost invariant = { λ row. length row.sectors.items ≤ 255 };
}

impl Row {
    /// The sectors of a process, none of them written.
    fn blank(alloc: Global, kind: &Kind) -> Result<Row, NoMemory>
        ensures { IfOk result (λ row. row ≡ blank_row kind.now) }
    {
        let mut sectors = Vec::new(alloc);
        for _ in 0..sector_count(kind) {
            sectors.push(None)?;
        }
        Ok(Row { sectors })
    }

    fn put(&mut self, sector: usize, words: &Sector)
        ensures { self.new ≡ slice_set self.old sector (Some words.now) }
    {
        if sector < self.sectors.len() {
            self.sectors[sector] = Some(*words);
        }
    }

    /// Puts the sectors that have been written after the others.
    fn push_sectors(&self, process: u8, all: &mut List<SectorWords>) -> Result<(), NoMemory>
        ensures { OnOk result (all.new ≡ all.old ++ row_sectors process 0 self.now) }
    {
        for (sector, words) in self.sectors.iter().enumerate() {
            if let Some(words) = words {
                all.push(SectorWords {
                    process,
                    sector: sector as u8,
                    words: *words,
                })?;
            }
        }
        Ok(())
    }
}

/// The sectors of each process of a site.
#[derive(Drop)]
pub struct Table {
    rows: Vec<Row>,
}

impl Model for Table {
    ghost use Rattle.std.specs.Prelude.{List as Items, ℤ, Option};

    ghost Value = { Items (Items (Option (Items ℤ))) };

    ghost view = { λ table. table.rows.items };
}

impl Table {
    /// A table in which nothing has been written.
    pub(crate) fn blank(alloc: Global, processes: &[ProcessSpec]) -> Result<Table, NoMemory>
        ensures { IfOk result (λ table. table ≡ blank_rows processes.now) }
    {
        let mut rows = Vec::new(alloc);
        for spec in processes {
            let row = Row::blank(alloc, &spec.what)?;
            rows.push(row)?;
        }
        Ok(Table { rows })
    }

    /// Puts in all writes, in order.
    pub(crate) fn put_all(&mut self, shown: &[Shown])
        ensures { self.new ≡ rows_after self.old shown.now }
    {
        for one in shown {
            self.put(one);
        }
    }

    fn put(&mut self, one: &Shown)
        ensures { self.new ≡ rows_with self.old one.now }
    {
        if let Shown::Write {
            process,
            sector,
            words,
        } = one
        {
            let process = usize::from(*process);
            if process < self.rows.len() {
                self.rows[process].put(usize::from(*sector), words);
            }
        }
    }

    /// The sectors that have been written, in order.
    pub(crate) fn sectors(&self, alloc: Global) -> Result<List<SectorWords>, NoMemory>
        requires { length self.now ≤ MOST_PROCESSES }
        ensures { IfOk result (λ sectors. sectors ≡ rows_sectors 0 self.now) }
    {
        let mut all = List::new(alloc);
        for (process, row) in self.rows.iter().enumerate() {
            row.push_sectors(process as u8, &mut all)?;
        }
        Ok(all)
    }
}

/// How many sectors a process has: those of a disc.
fn sector_count(kind: &Kind) -> u8
    ensures { result ≡ sector_count kind.now }
{
    match kind {
        Kind::Disc { sectors, .. } => *sectors,
        Kind::Pair(_) => 0,
    }
}
