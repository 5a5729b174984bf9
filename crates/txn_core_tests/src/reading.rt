//! A plain reading of the core: what each part has, and the four steps. Nothing here is taken from the code that it is
//! compared with.
ghost use Rattle.std.specs.Prelude.{◌<◌};

use crate::rules::{is_backed, is_lawful, is_violated, list_at, visible_from};
use std::alloc::{AllocError, Global};
use txn_base::CoreEntry;
use txn_core::{Core, CoreStep};

/// The coordinator and 62 parts.
const PARTS: usize = 63;

/// Places that a topic told, from one on.
#[derive(Drop)]
struct Telling {
    topic: u32,
    first: u64,
    places: Vec<u64>,
}

/// What each part has settled and has in flight, whether its flight is sure, and what was told.
#[derive(Drop)]
pub struct Reading {
    alloc: Global,
    settled: Vec<Vec<CoreEntry>>,
    flights: Vec<Vec<CoreEntry>>,
    sure: Vec<bool>,
    told: Vec<Telling>,
}

impl Reading {
    pub fn new(alloc: Global) -> Result<Reading, AllocError> {
        let mut reading = Reading {
            alloc,
            settled: Vec::new(alloc),
            flights: Vec::new(alloc),
            sure: Vec::new(alloc),
            told: Vec::new(alloc),
        };
        for _ in 0..PARTS {
            reading.settled.push(Vec::new(alloc))?;
            reading.flights.push(Vec::new(alloc))?;
            reading.sure.push(false)?;
        }
        Ok(reading)
    }

    /// The settled list of a part.
    pub fn settled(&self, part: u32) -> &[CoreEntry] {
        list_at(self.settled.as_slice(), part)
    }

    /// What a part has in flight.
    pub fn flight(&self, part: u32) -> &[CoreEntry] {
        list_at(self.flights.as_slice(), part)
    }

    fn is_sure(&self, part: u32) -> bool {
        match self.sure.get(part as usize) {
            Some(sure) => *sure,
            None => false,
        }
    }

    /// How many entries are settled in all.
    pub fn count_entries(&self) -> usize {
        let mut count = 0_usize;
        for list in self.settled.as_slice() {
            count = count.saturating_add(list.len());
        }
        count
    }

    pub fn count_told(&self) -> usize {
        self.told.len()
    }

    /// Whether the step is allowed.
    pub fn allows(&self, step: &CoreStep) -> Result<bool, AllocError> {
        match step {
            CoreStep::Start { part, entries } => self.allows_start(*part, entries.as_slice()),
            CoreStep::Settle { part } => Ok(self.flight(*part).len() > 0),
            CoreStep::Stop { part, kept } => {
                Ok(self.flight(*part).len() > 0 && (*kept || !self.is_sure(*part)))
            }
            CoreStep::Tell {
                topic,
                first,
                count,
            } => {
                let places = visible_from(self.alloc, self.settled(*topic), *first)?;
                Ok(places.len() as u64 >= *count)
            }
        }
    }

    fn allows_start(&self, part: u32, entries: &[CoreEntry]) -> Result<bool, AllocError> {
        if part as usize >= PARTS || self.flight(part).len() > 0 {
            return Ok(false);
        }
        if entries.len() == 0 || entries.len() > 64 || (part == 0 && entries.len() != 1) {
            return Ok(false);
        }
        let mut whole = Vec::from_slice(self.alloc, self.settled(part))?;
        whole.extend_from_slice(entries)?;
        if !is_lawful(self.alloc, part, whole.as_slice())? {
            return Ok(false);
        }
        for entry in entries {
            if !is_backed(self.settled.as_slice(), part, *entry) {
                return Ok(false);
            }
        }
        Ok(true)
    }

    /// Makes a step that is allowed.
    pub fn make(&mut self, step: &CoreStep) -> Result<(), AllocError> {
        match step {
            CoreStep::Start { part, entries } => {
                if let Some(flight) = self.flights.get_mut(*part as usize) {
                    flight.extend_from_slice(entries.as_slice())?;
                }
                self.set_sure(*part, false);
            }
            CoreStep::Settle { part } => self.settle(*part)?,
            CoreStep::Stop { part, kept } => {
                for _ in 0..64 {
                    if *kept {
                        self.settle(*part)?;
                    }
                }
                if let Some(flight) = self.flights.get_mut(*part as usize) {
                    flight.clear();
                }
            }
            CoreStep::Tell {
                topic,
                first,
                count,
            } => {
                let mut places = visible_from(self.alloc, self.settled(*topic), *first)?;
                if let Ok(count) = usize::try_from(*count) {
                    places.truncate(count);
                }
                self.told.push(Telling {
                    topic: *topic,
                    first: *first,
                    places,
                })?;
            }
        }
        Ok(())
    }

    fn set_sure(&mut self, part: u32, value: bool) {
        if let Some(sure) = self.sure.get_mut(part as usize) {
            *sure = value;
        }
    }

    /// The first entry of the part's flight, if there is any, moves to its settled list.
    fn settle(&mut self, part: u32) -> Result<(), AllocError> {
        let Some(entry) = self.flight(part).first().copied() else {
            return Ok(());
        };
        if let Some(settled) = self.settled.get_mut(part as usize) {
            settled.push(entry)?;
        }
        if let Some(flight) = self.flights.get_mut(part as usize) {
            if flight.len() > 0 {
                let _ = flight.remove(0);
            }
        }
        self.set_sure(part, true);
        Ok(())
    }

    /// The core's settled lists, what it has in flight and what it told are those of this reading.
    pub fn is_same(&self, core: &Core) -> bool {
        for part in 0..70_u32 {
            if core.settled(part) != self.settled(part) || core.flight(part) != self.flight(part) {
                return false;
            }
        }
        self.tells_same(core)
    }

    fn tells_same(&self, core: &Core) -> bool {
        if core.told().len() != self.told.len() {
            return false;
        }
        let mut rest = core.told();
        for telling in self.told.as_slice() {
            let Some((told, tail)) = rest.split_first() else {
                return false;
            };
            if told.topic != telling.topic
                || told.first != telling.first
                || told.places.as_slice() != telling.places.as_slice()
            {
                return false;
            }
            rest = tail;
        }
        true
    }

    /// Each telling is of the first visible places of its topic's list as it is now.
    pub fn still_tells(&self) -> Result<bool, AllocError> {
        for telling in self.told.as_slice() {
            let now = visible_from(self.alloc, self.settled(telling.topic), telling.first)?;
            if !now.as_slice().starts_with(telling.places.as_slice()) {
                return Ok(false);
            }
        }
        Ok(true)
    }

    /// Whichever of the first parts keep their flight, no rule is violated.
    pub fn is_lawful_whatever_stays(&self, core: &Core, parts: u32) -> Result<bool, AllocError>
        requires { parts < 32 }
    {
        for choice in 0..(1_u32 << parts) {
            let mut lists = Vec::new(self.alloc);
            for part in 0..parts {
                let mut list = Vec::from_slice(self.alloc, core.settled(part))?;
                if (choice >> part) & 1 == 1 {
                    list.extend_from_slice(core.flight(part))?;
                }
                lists.push(list)?;
            }
            if is_violated(self.alloc, lists.as_slice())? {
                return Ok(false);
            }
        }
        Ok(true)
    }
}
