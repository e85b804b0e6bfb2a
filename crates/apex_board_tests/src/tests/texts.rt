//! The base configuration, and the traces of the examples.

pub(crate) const AIR: usize = 2;

pub(crate) const NAV: usize = 0;

/// A queuing channel NAV from FMS to DSP, and a sampling channel SPD from AIR to DSP.
pub(crate) const BASE: &str = "[[partition]]
name = \"FMS\"
port = [{ name = \"NAV_OUT\", kind = \"queuing\", direction = \"source\", channel = \"NAV\" }]
[[partition]]
name = \"DSP\"
port = [{ name = \"NAV_IN\", kind = \"queuing\", direction = \"destination\", channel = \"NAV\" }, { name = \"SPD_IN\", kind = \"sampling\", direction = \"destination\", channel = \"SPD\", refresh = 50 }]
[[partition]]
name = \"AIR\"
port = [{ name = \"SPD_OUT\", kind = \"sampling\", direction = \"source\", channel = \"SPD\", refresh = 50 }]
[[channel]]
name = \"NAV\"
kind = \"queuing\"
size = 4
depth = 2
[[channel]]
name = \"SPD\"
kind = \"sampling\"
size = 4
";

/// The calls of a full queue, from the creation of its ports on.
pub(crate) const FULL_QUEUE: &str = "1 FMS create-queuing NAV_OUT 4 2 0 0
2 DSP create-queuing NAV_IN 4 2 1 0
3 FMS mode 3
4 DSP mode 3
5 FMS send 1 01
6 FMS send 1 02
7 FMS send 1 03
8 DSP receive 1
9 FMS send 1 03
10 DSP receive 1
11 DSP receive 1
";

/// The log of these calls.
pub(crate) const FULL_QUEUE_LOG: &str = "1 1 FMS create-queuing NO_ERROR id 1
2 2 DSP create-queuing NO_ERROR id 1
3 3 FMS mode NO_ERROR
4 4 DSP mode NO_ERROR
5 5 FMS send NO_ERROR
6 6 FMS send NO_ERROR
7 7 FMS send NOT_AVAILABLE
8 8 DSP receive NO_ERROR message 01
9 9 FMS send NO_ERROR
10 10 DSP receive NO_ERROR message 02
11 11 DSP receive NO_ERROR message 03
";

/// A message is written and read, from the creation of the ports on.
pub(crate) const ONE_SAMPLE: &str = "1 AIR create-sampling SPD_OUT 4 0 50
2 DSP create-sampling SPD_IN 4 1 50
100 AIR write 1 00ff
150 DSP read 2
";
