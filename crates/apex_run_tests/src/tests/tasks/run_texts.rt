//! The text of a run of two scripts, with real threads and gates that force an order.
ghost use Rattle.std.specs.Prelude.{ℕ, ◌≡◌};

use crate::tests::texts::{REDUCED, SENDER, WAITING_RECEIVER};
use apex_config::ReadConfig;
use apex_module::Config;
use apex_runs::run_text;
use apex_texts::{Fault, read_script};
use apex_threads::{Gate, Held};
use apex_types::Name;
use std::alloc::AllocGlobal;
use std::process::Abort;
use std::sync::Wait;
use std::sync::atomic::{AtomicBool, Ordering};
use std::test::Fail;
use std::thread;
use std::thread::Threads;

/// The text of a run of the sender and the receiver.
fn text_of<R: Threads + Wait + Sync + Abort + AllocGlobal, G: Gate>(
    rt: &R,
    gate: &G,
) -> Result<Result<String, Fault>, Fail> {
    let config = Config::read(rt.alloc(), REDUCED.as_bytes())?;
    let scripts = [
        read_script(rt.alloc(), SENDER.as_bytes())?,
        read_script(rt.alloc(), WAITING_RECEIVER.as_bytes())?,
    ];
    assert!(rt; config.partitions() == 2);
    Ok(run_text(rt, rt.alloc(), &config, &scripts, gate))
}

/// The number of times that a gate looks for a flag before it gives up.
const TURNS: u32 = 10_000_000;

/// The receiver makes its first call after the sender's last was answered.
#[derive(Drop)]
struct InTurn {
    is_sent: AtomicBool,
}

impl Gate for InTurn {
    ghost may_refuse = { λ _ partition n. n ≡ 1 };

    fn pass(&self, partition: usize, n: usize) -> Result<(), Held> {
        if partition != 1 || n != 1 {
            return Ok(());
        }
        for _ in 0..TURNS {
            if self.is_sent.load(Ordering::SeqCst) {
                return Ok(());
            }
            thread::yield_now();
        }
        Err(Held)
    }

    fn answered(&self, partition: usize, n: usize) {
        if partition == 0 && n == 3 {
            self.is_sent.store(true, Ordering::SeqCst);
        }
    }
}

/// The sender's second call is refused.
#[derive(Clone, Copy, Drop)]
struct HoldsSender;

impl Gate for HoldsSender {
    ghost may_refuse = { λ _ partition n. (partition ≡ 0) × (n ≡ 2) };

    fn pass(&self, partition: usize, n: usize) -> Result<(), Held> {
        if partition == 0 && n == 2 {
            return Err(Held);
        }
        Ok(())
    }

    fn answered(&self, _partition: usize, _n: usize) {}
}

#[test]
fn a_run_in_one_order(rt: HostRuntime) -> Result<(), Fail> {
    let gate = InTurn {
        is_sent: AtomicBool::new(false),
    };
    let text = text_of(&rt, &gate)??;
    let wanted = "1 1 FMS create-queuing NO_ERROR id 1
2 2 FMS mode NO_ERROR
3 3 FMS send NO_ERROR
4 1 DSP create-queuing NO_ERROR id 1
5 2 DSP mode NO_ERROR
6 3 DSP receive NO_ERROR message 01
partition FMS mode NORMAL calls 3
partition DSP mode NORMAL calls 3
queuing NAV accepted 1 received 1 waiting 0
";
    assert_eq!(rt; text.as_str(), wanted);
    Ok(())
}

#[test]
fn a_held_worker_is_named_by_its_partition(rt: HostRuntime) -> Result<(), Fail> {
    let fault = text_of(&rt, &HoldsSender)?.err();
    let partition = Name::read("FMS")?;
    assert_eq!(rt; fault, Some(Fault::Held { partition, n: 2 }));
    Ok(())
}
