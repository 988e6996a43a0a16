//! How long something takes, several times.
use crate::timing::faults::Fault;
use crate::timing::spread::{Spread, spread_of};
use std::time::Instant;

/// A stopwatch, with the times that it took. Where it fails, `spread` tells.
#[derive(Drop)]
pub struct Watch {
    begin: Instant,
    spent: Vec<u128>,
    fault: Option<Fault>,
}

impl Watch {
    /// A stopwatch that runs.
    pub fn new(rt: &HostRuntime) -> Result<Watch, Fault> {
        let begin = Instant::now(rt)?;
        Ok(Watch {
            begin,
            spent: Vec::new(rt.alloc()),
            fault: None,
        })
    }

    /// Starts it anew.
    pub fn start(&mut self, rt: &HostRuntime) {
        match Instant::now(rt) {
            Ok(begin) => self.begin = begin,
            Err(fault) => self.fault = Some(Fault::from(fault)),
        }
    }

    /// Adds the time since its start.
    fn add(&mut self, rt: &HostRuntime) -> Result<(), Fault> {
        let took = self.begin.elapsed(rt)?;
        self.spent.push(took.as_nanos())?;
        Ok(())
    }

    /// Takes the time since its start.
    pub fn stop(&mut self, rt: &HostRuntime) {
        if let Err(fault) = self.add(rt) {
            self.fault = Some(fault);
        }
    }

    /// The median, the best and the worst of the times that it took, which are then forgotten.
    pub fn spread(&mut self) -> Result<Spread, Fault> {
        if let Some(fault) = self.fault {
            return Err(fault);
        }
        let spread = spread_of(&mut self.spent);
        self.spent.clear();
        Ok(spread)
    }
}
