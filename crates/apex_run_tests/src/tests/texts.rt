//! The configurations and the scripts of the examples.
use crate::tests::workers::runs_left::Left;
use std::alloc::{AllocError, Global};

/// A queuing channel NAV from FMS to DSP, and a sampling channel SPD from AIR to DSP.
pub(crate) const BASE: &str = "[[partition]]
name = \"FMS\"
port = [{ name = \"NAV_OUT\", kind = \"queuing\", direction = \"source\", channel = \"NAV\" }]
[[partition]]
name = \"DSP\"
port = [{ name = \"NAV_IN\", kind = \"queuing\", direction = \"destination\", channel = \"NAV\" }, { name = \"SPD_IN\", kind = \"sampling\", direction = \"destination\", channel = \"SPD\", refresh = 50 }]
[[partition]]
name = \"AIR\"
port = [{ name = \"SPD_OUT\", kind = \"sampling\", direction = \"source\", channel = \"SPD\", refresh = 50 }]
[[channel]]
name = \"NAV\"
kind = \"queuing\"
size = 4
depth = 2
[[channel]]
name = \"SPD\"
kind = \"sampling\"
size = 4
";

/// Only the queuing channel NAV from FMS to DSP.
pub(crate) const REDUCED: &str = "[[partition]]
name = \"FMS\"
port = [{ name = \"NAV_OUT\", kind = \"queuing\", direction = \"source\", channel = \"NAV\" }]
[[partition]]
name = \"DSP\"
port = [{ name = \"NAV_IN\", kind = \"queuing\", direction = \"destination\", channel = \"NAV\" }]
[[channel]]
name = \"NAV\"
kind = \"queuing\"
size = 4
depth = 2
";

/// The sampling channels SPD and ALT from AIR to DSP, with the queuing channel NAV between them.
pub(crate) const TWO_SAMPLING: &str = "[[partition]]
name = \"AIR\"
port = [{ name = \"SPD_OUT\", kind = \"sampling\", direction = \"source\", channel = \"SPD\", refresh = 50 }, { name = \"NAV_OUT\", kind = \"queuing\", direction = \"source\", channel = \"NAV\" }, { name = \"ALT_OUT\", kind = \"sampling\", direction = \"source\", channel = \"ALT\", refresh = 50 }]
[[partition]]
name = \"DSP\"
port = [{ name = \"SPD_IN\", kind = \"sampling\", direction = \"destination\", channel = \"SPD\", refresh = 50 }, { name = \"NAV_IN\", kind = \"queuing\", direction = \"destination\", channel = \"NAV\" }, { name = \"ALT_IN\", kind = \"sampling\", direction = \"destination\", channel = \"ALT\", refresh = 50 }]

[[channel]]
name = \"SPD\"
kind = \"sampling\"
size = 4
[[channel]]
name = \"NAV\"
kind = \"queuing\"
size = 4
depth = 2
[[channel]]
name = \"ALT\"
kind = \"sampling\"
size = 4
";

/// This number of partitions P0, P1 and so on, without ports.
pub(crate) fn without_ports(alloc: Global, partitions: usize) -> Result<String, AllocError> {
    let mut text = String::new(alloc);
    for number in 0..partitions {
        let partition = format!(in alloc; "[[partition]]\nname = \"P{number}\"\n")?;
        text.push_str(partition.as_str())?;
    }
    Ok(text)
}

/// This number of partitions, each with a queuing channel to the next, of depth 4.
pub(crate) fn ring_text(alloc: Global, partitions: usize) -> Result<String, AllocError> {
    let mut text = String::new(alloc);
    let mut before = partitions.saturating_sub(1);
    for number in 0..partitions {
        let partition = format!(in alloc;
            "[[partition]]
name = \"P{number}\"
port = [{{ name = \"OUT\", kind = \"queuing\", direction = \"source\", channel = \"C{number}\" }}, {{ name = \"IN\", kind = \"queuing\", direction = \"destination\", channel = \"C{before}\" }}]
[[channel]]
name = \"C{number}\"
kind = \"queuing\"
size = 4
depth = 4
"
        )?;
        text.push_str(partition.as_str())?;
        before = number;
    }
    Ok(text)
}

/// FMS and DSP create their ports of NAV and go to NORMAL, and FMS sends a message.
pub(crate) const SENDER: &str = "1 create-queuing NAV_OUT 4 2 0 0
2 mode 3
3 send 1 01
";

pub(crate) const RECEIVER: &str = "1 create-queuing NAV_IN 4 2 1 0
2 mode 3
";

/// DSP receives as its third call.
pub(crate) const WAITING_RECEIVER: &str = "1 create-queuing NAV_IN 4 2 1 0
2 mode 3
3 receive 1
";

/// The scripts of FMS, DSP and AIR: FMS creates its port of NAV and sends two messages, DSP makes no call, and AIR
/// creates its port of SPD and writes.
pub(crate) const THREE: &[&str] = &[
    "1 create-queuing NAV_OUT 4 2 0 0
2 send 1 01
3 send 1 02
",
    "",
    "1 create-sampling SPD_OUT 4 0 50
2 write 1 00ff
",
];

/// What a run of them leaves.
pub(crate) const LEFT_BY_THREE: Left = Left {
    replies: &[
        "NO_ERROR id 1
NO_ERROR
NO_ERROR
",
        "",
        "NO_ERROR id 1
NO_ERROR
",
    ],
    totals: "partition FMS mode COLD_START calls 3
partition DSP mode COLD_START calls 0
partition AIR mode COLD_START calls 2
queuing NAV accepted 2 received 0 waiting 2 01 02
sampling SPD 00ff at 2
",
};
