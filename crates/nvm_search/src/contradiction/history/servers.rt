//! Who can have put what a point found.
use crate::contradiction::contents::{ANYTHING, Sought};
use crate::contradiction::history::{EVERY, History, NOWHERE};
use crate::contradiction::writers::{Asked, last_sure, put_asked, run};
use crate::numbers::ZERO;
use nvm_record::NoMemory;
use nvm_trace::Start;

/// So many writers of a run are gone through at most to find some by their times.
const LOOKED: usize = 4_096;

impl<'a> History<'a> {
    /// Of the points that surely put the block and were over before the reader began, the one that began last.
    pub fn last_sure(&self, reader: u32, block: u32) -> Option<u32> {
        last_sure(&self.sure, block, self.point(reader).from)
    }

    /// Whether what was found can't have been there at first, whatever was put.
    pub fn is_never_first(&self, sought: Sought) -> bool {
        match self.table.start {
            Start::Zeroes => !sought.may_be(ZERO),
            Start::Unknown => false,
        }
    }

    /// Whether what the reader found in the block can have been there at first, by the times.
    pub fn may_be_first(&self, reader: u32, block: u32, sought: Sought) -> bool {
        !self.is_never_first(sought) && self.last_sure(reader, block).is_none()
    }

    /// The points that are asked for in the block, where of those that may put anything in very many blocks there are at most `most_wild`.
    fn asked(
        &self,
        block: u32,
        asked: Asked,
        most_wild: usize,
    ) -> Result<Option<Vec<u32>>, NoMemory> {
        let wild = Asked {
            most: most_wild,
            ..asked
        };
        let mut servers = Vec::new(self.alloc);
        let is_all = put_asked(&mut servers, run(&self.writers, NOWHERE, ANYTHING), wild)?
            && match asked.sought {
                Sought::Value(value) => {
                    put_asked(&mut servers, run(&self.writers, block, value), asked)?
                        && put_asked(&mut servers, run(&self.writers, block, ANYTHING), asked)?
                }
                _ => put_asked(&mut servers, run(&self.writers, block, EVERY), asked)?,
            };
        if !is_all {
            return Ok(None);
        }
        servers.sort_unstable();
        servers.dedup();
        Ok(Some(servers))
    }

    /// The other points that can have put what was found, by the times, and none where they are more than `most`, or one of them may put
    /// anything in very many blocks.
    pub fn servers(
        &self,
        reader: u32,
        block: u32,
        sought: Sought,
        most: usize,
    ) -> Result<Option<Vec<u32>>, NoMemory> {
        let asked = Asked {
            reader,
            sought,
            by: self.until(reader),
            least: match self.last_sure(reader, block) {
                Some(writer) => self.point(writer).from,
                None => 0,
            },
            most,
            looked: LOOKED,
        };
        self.asked(block, asked, 0)
    }

    /// All other points that can have put what was found, whatever the times.
    pub fn all_servers(
        &self,
        reader: u32,
        block: u32,
        sought: Sought,
    ) -> Result<Vec<u32>, NoMemory> {
        let asked = Asked {
            reader,
            sought,
            by: u64::MAX,
            least: 0,
            most: usize::MAX,
            looked: usize::MAX,
        };
        let servers = self.asked(block, asked, usize::MAX)?;
        Ok(servers.unwrap_or(Vec::new(self.alloc)))
    }

    /// How many points, at most, can have put what was found in the block, whatever the times, beside those that may put anything in very
    /// many.
    pub fn count_servers(&self, block: u32, sought: Sought) -> usize {
        match sought {
            Sought::Value(value) => run(&self.writers, block, value)
                .len()
                .saturating_add(run(&self.writers, block, ANYTHING).len()),
            _ => run(&self.writers, block, EVERY).len(),
        }
    }

    /// Whether nobody can have put what the point found in the block, by the times alone.
    pub fn is_unserved(&self, number: u32, block: u32, sought: Sought) -> Result<bool, NoMemory> {
        Ok(
            !self.may_be_first(number, block, sought)
                && self.servers(number, block, sought, 0)?.is_some(),
        )
    }
}
