//! Generations with their log.
ghost use Rattle.std.specs.Prelude.{◌≡◌, ◌≤◌, ◌++◌, length, IsTrue, OnOk, OnErr};
ghost use Rattle.std.specs.List.{flat_map, enumerate_from};
ghost use Rattle.state_space.specs.State.{IsState};
ghost use Rattle.state_space.specs.Generation.{can_generate, generated};
ghost use Rattle.state_space.specs.Undo.{old_port, generation_log};
ghost use Rattle.partial_state.specs.steps.GenerationLog.{Extends, old_ports, all_old_ports, HaveFewPorts};

use crate::change_log::{ChangeLog, LogEntry};
use crate::partial::Partial;
use crate::ports::MadePort;
use crate::row::InstanceRow;
use prod_model::Problem;
use std::alloc::AllocError;

impl Partial {
    /// Makes the next instance, and logs what that replaces. After `AllocError`, which comes where
    /// memory runs out or the log is full, the state and the log are as they were.
    pub(crate) fn generate_logged(
        &mut self,
        problem: &Problem,
        log: &mut ChangeLog,
    ) -> Result<(), AllocError>
        requires state { IsState problem.now self.old }
        requires room { IsTrue (can_generate problem.now self.old) }
        ensures made { OnOk result (self.new ≡ generated problem.now self.old) }
        ensures unchanged { OnErr result (self.new ≡ self.old) }
        ensures logged { OnOk result (log.new ≡ log.old ++ generation_log self.old) }
        ensures kept { OnErr result (log.new ≡ log.old) }
        ensures state { IsState problem.now self.new }
    {
        let len = log.len();
        match self.log_and_generate(problem, log) {
            Ok(()) => Ok(()),
            Err(error) => {
                log.cut_to(len);
                Err(error)
            }
        }
    }

    /// After `AllocError` the log may have some of the entries.
    fn log_and_generate(&mut self, problem: &Problem, log: &mut ChangeLog) -> Result<(), AllocError>
        requires state { IsState problem.now self.old }
        requires room { IsTrue (can_generate problem.now self.old) }
        ensures made { OnOk result (self.new ≡ generated problem.now self.old) }
        ensures unchanged { OnErr result (self.new ≡ self.old) }
        ensures logged { OnOk result (log.new ≡ log.old ++ generation_log self.old) }
        ensures kept { OnErr result (Extends log.old log.new) }
        ensures state { IsState problem.now self.new }
    {
        self.log_ports(problem, log)?;
        log.push(LogEntry::of_made())?;
        self.generate(problem)?;
        Ok(())
    }

    /// Logs the ports of all instances, but for closed ones.
    fn log_ports(&self, problem: &Problem, log: &mut ChangeLog) -> Result<(), AllocError>
        requires { IsState problem.now self.now }
        ensures logged { OnOk result (log.new ≡ log.old ++ all_old_ports self.now.made) }
        ensures kept { OnErr result (Extends log.old log.new) }
    {
        let _model = problem.model();
        log_rows(self.made.as_slice(), log)?;
        Ok(())
    }
}

fn log_rows(rows: &[InstanceRow], log: &mut ChangeLog) -> Result<(), AllocError>
    requires few { length rows.now ≤ 256 }
    requires few_ports { HaveFewPorts rows.now }
    ensures logged { OnOk result (log.new ≡ log.old ++ all_old_ports rows.now) }
    ensures kept { OnErr result (Extends log.old log.new) }
{
    for (i, row) in rows.iter().enumerate() {
        row.log_ports(i as u32, log)?;
    }
    Ok(())
}

impl InstanceRow {
    /// Logs the ports of instance `i`, which this is.
    fn log_ports(&self, i: u32, log: &mut ChangeLog) -> Result<(), AllocError>
        requires { length self.now.ports ≤ 256 }
        ensures logged { OnOk result (log.new ≡ log.old ++ old_ports i self.now.ports) }
        ensures kept { OnErr result (Extends log.old log.new) }
    {
        log_slots(self.ports.as_slice(), i, log)?;
        Ok(())
    }
}

/// Logs the ports of instance `i`.
fn log_slots(ports: &[Option<MadePort>], i: u32, log: &mut ChangeLog) -> Result<(), AllocError>
    requires { length ports.now ≤ 256 }
    ensures logged { OnOk result (log.new ≡ log.old ++ old_ports i ports.now) }
    ensures kept { OnErr result (Extends log.old log.new) }
{
    for (port, links) in ports.iter().enumerate() {
        log_slot(links, i, port as u32, log)?;
    }
    Ok(())
}

/// Logs what a port of instance `i` may link, unless it is closed.
fn log_slot(
    links: &Option<MadePort>,
    i: u32,
    port: u32,
    log: &mut ChangeLog,
) -> Result<(), AllocError>
    ensures logged { OnOk result (log.new ≡ log.old ++ old_port i (port, links.now)) }
    ensures kept { OnErr result (log.new ≡ log.old) }
{
    if let Some(old) = links {
        if !old.is_closed() {
            log.push(LogEntry::of_port(i, port, MadePort::from_links(old.links())))?;
        }
    }
    Ok(())
}
