//! Packet contexts by their numbers, and which of them are active.
ghost use Rattle.std.specs.Prelude.{◌≡◌, ◌==◌, IfOk, OnOk, OnErr, nat_le};
ghost use Rattle.std.specs.List.{list_any, position_from};
ghost use Rattle.modem_sim.specs.Contexts.{names};

use at_cmds::{Apn, Pdp};
use std::alloc::{AllocError, Global};
use std::marker::Model;

/// A packet context that was defined (27.007, 10.1.1).
#[derive(Drop)]
pub(crate) struct PdpContext {
    /// Its number, 1 to 15.
    pub(crate) cid: u8,
    pub(crate) pdp: Pdp,
    pub(crate) apn: Apn,
}

impl PdpContext {
    /// Whether it is the one of this number, where there is a number.
    pub(crate) fn is_named(&self, which: Option<u8>) -> bool
        ensures { result ≡ names which self.now }
    {
        match which {
            Some(cid) => self.cid == cid,
            None => true,
        }
    }

    /// A copy of the context.
    fn copy(&self) -> Result<PdpContext, AllocError>
        ensures { IfOk result (λ copy. copy ≡ self.now) }
    {
        Ok(PdpContext {
            cid: self.cid,
            pdp: self.pdp,
            apn: self.apn.copy()?,
        })
    }
}

/// The contexts in rising order of their numbers, which contracts see as a list.
#[derive(Drop)]
pub(crate) struct PdpContexts {
    contexts: Vec<PdpContext>,
}

impl Model for PdpContexts {
    ghost use Rattle.std.specs.Prelude.{List};
    ghost use Rattle.modem_sim.specs.declared.contexts.PdpContext.{PdpContext};

    ghost Value = { List PdpContext };

    ghost view = { λ c. c.contexts.items };
}

impl PdpContexts {
    ghost use Rattle.std.specs.Prelude.{[]};
    ghost use Rattle.modem_sim.specs.Contexts.{is_defined, with_context};

    pub(crate) fn new(alloc: Global) -> PdpContexts
        ensures { result ≡ [] }
    {
        PdpContexts {
            contexts: Vec::new(alloc),
        }
    }

    pub(crate) fn as_slice(&self) -> &[PdpContext]
        ensures { result.now ≡ self.now }
    {
        self.contexts.as_slice()
    }

    /// A copy of the contexts.
    pub(crate) fn copy(&self) -> Result<PdpContexts, AllocError>
        ensures { IfOk result (λ copy. copy ≡ self.now) }
    {
        let mut contexts = Vec::with_capacity(*self.contexts.allocator(), self.contexts.len())?;
        for context in &self.contexts {
            contexts.push(context.copy()?)?;
        }
        Ok(PdpContexts { contexts })
    }

    /// Whether there is a context of this number, where there is a number.
    pub(crate) fn is_defined(&self, which: Option<u8>) -> bool
        ensures { result ≡ is_defined which self.now }
    {
        match which {
            Some(cid) => has_cid(&self.contexts, cid),
            None => true,
        }
    }

    /// Sets a context, or replaces the one of its number. Want of memory leaves the contexts as they were.
    pub(crate) fn set(&mut self, context: PdpContext) -> Result<(), AllocError>
        ensures ok { OnOk result (self.new ≡ with_context context self.old) }
        ensures err { OnErr result (self.new ≡ self.old) }
    {
        let Some(i) = place_of(&self.contexts, context.cid) else {
            self.contexts.push(context)?;
            return Ok(());
        };
        if self.contexts[i].cid == context.cid {
            self.contexts[i] = context;
        } else {
            self.contexts.insert(i, context)?;
        }
        Ok(())
    }
}

/// Whether one of these contexts has this number.
fn has_cid(contexts: &[PdpContext], cid: u8) -> bool
    ensures { result ≡ list_any (λ c. c.cid == cid) contexts.now }
{
    contexts.iter().any(|context| context.cid == cid)
}

/// The place of the first context whose number isn't below this one.
fn place_of(contexts: &[PdpContext], cid: u8) -> Option<usize>
    ensures { result ≡ position_from (λ c. nat_le cid c.cid) 0 contexts.now }
{
    contexts.iter().position(|kept| kept.cid >= cid)
}

/// The numbers of the contexts that are active, which contracts see as a list.
#[derive(Drop)]
pub(crate) struct ActiveContexts {
    cids: Vec<u8>,
}

impl Model for ActiveContexts {
    ghost use Rattle.std.specs.Prelude.{List, ℕ};

    ghost Value = { List ℕ };

    ghost view = { λ a. a.cids.items };
}

impl ActiveContexts {
    ghost use Rattle.std.specs.Prelude.{[]};
    ghost use Rattle.modem_sim.specs.Contexts.{active_after, becomes_active, is_active};

    pub(crate) fn new(alloc: Global) -> ActiveContexts
        ensures { result ≡ [] }
    {
        ActiveContexts {
            cids: Vec::new(alloc),
        }
    }

    /// A copy of the numbers.
    pub(crate) fn copy(&self) -> Result<ActiveContexts, AllocError>
        ensures { IfOk result (λ copy. copy ≡ self.now) }
    {
        Ok(ActiveContexts {
            cids: Vec::from_slice(*self.cids.allocator(), self.cids.as_slice())?,
        })
    }

    /// None is active any more.
    pub(crate) fn clear(&mut self)
        ensures { self.new ≡ [] }
    {
        self.cids.clear();
    }

    /// Whether the context of this number is active.
    pub(crate) fn has(&self, cid: u8) -> bool
        ensures { result ≡ is_active self.now cid }
    {
        self.cids.iter().any(|active| *active == cid)
    }

    /// Whether it is active once those that are named became so, or inactive.
    fn keeps(&self, on: bool, which: Option<u8>, context: &PdpContext) -> bool
        ensures { result ≡ becomes_active on which self.now context.now }
    {
        if context.is_named(which) {
            on
        } else {
            self.has(context.cid)
        }
    }

    /// The contexts that are active once those that are named became so, or inactive.
    pub(crate) fn after(
        &self,
        on: bool,
        which: Option<u8>,
        contexts: &[PdpContext],
    ) -> Result<ActiveContexts, AllocError>
        ensures { IfOk result (λ after. after ≡ active_after on which self.now contexts.now) }
    {
        let mut cids = Vec::new(*self.cids.allocator());
        for context in contexts {
            if self.keeps(on, which, context) {
                cids.push(context.cid)?;
            }
        }
        Ok(ActiveContexts { cids })
    }
}
