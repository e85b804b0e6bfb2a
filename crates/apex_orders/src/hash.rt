//! Hashes of points, which distinguish most points without a comparison.
ghost use Rattle.std.specs.Prelude.{◌≡◌, ◌<◌, length};
ghost use Rattle.apex_orders.specs.Prelude.{option_copied, waiting_on};
ghost use Rattle.apex_orders.specs.Hashes.{hash_of, mix, calls_hash, shown_hash, shown_from, messages_hash, message_hash, bytes_hash};

use apex_ports::Ports;

/// A hash of the counts of calls and messages, the waiting messages, and the last validity that ports show. Equal
/// points have the same hash.
pub(crate) fn hash_of(ports: &Ports) -> u64
    ensures { result ≡ hash_of ports.now.config ports.now.history }
{
    let shown = hash_of_shown(ports);
    let mut hash = shown;
    for c in 0..ports.config().channels() {
        hash = mix(hash, ports.accepted_count(c));
        hash = mix(hash, ports.received_count(c));
        hash = hash_with_messages(ports, c, hash);
    }
    hash
}

fn hash_of_calls(ports: &Ports) -> u64
    ensures { result ≡ calls_hash ports.now.config ports.now.history }
{
    let mut hash = 0u64;
    for p in 0..ports.config().partitions() {
        hash = mix(hash, ports.calls(p));
    }
    hash
}

fn hash_of_shown(ports: &Ports) -> u64
    ensures { result ≡ shown_hash ports.now.config ports.now.history }
{
    let calls = hash_of_calls(ports);
    let mut hash = calls;
    for p in 0..ports.config().partitions() {
        hash = hash_with_shown(ports, p, hash);
    }
    hash
}

/// The hash extended by the last validity that the partition's ports show.
fn hash_with_shown(ports: &Ports, p: usize, before: u64) -> u64
    requires { p < length ports.now.config.partitions }
    ensures { result ≡ shown_from ports.now.config ports.now.history p before }
{
    let mut hash = before;
    for i in 0..ports.config().ports(p) {
        let last = ports.last_validity(p, i as u32 + 1);
        hash = mix(hash, last.number() as u64);
    }
    hash
}

/// The hash extended by the messages that wait on the channel.
fn hash_with_messages(ports: &Ports, c: usize, before: u64) -> u64
    requires { c < length ports.now.config.channels }
    ensures { result ≡ messages_hash before
        (waiting_on ports.now.config c ports.now.history) }
{
    let mut hash = before;
    for i in 0..ports.waiting_count(c) {
        hash = hash_with_message(hash, ports.waiting(c, i));
    }
    hash
}

fn hash_with_message(hash: u64, message: Option<&[u8]>) -> u64
    ensures { result ≡ message_hash hash (option_copied message.entry) }
{
    match message {
        None => hash,
        Some(message) => hash_with_bytes(hash, message),
    }
}

fn hash_with_bytes(before: u64, bytes: &[u8]) -> u64
    ensures { result ≡ bytes_hash before bytes.now }
{
    let mut hash = mix(before, bytes.len() as u64);
    for i in 0..bytes.len() {
        hash = mix(hash, bytes[i] as u64);
    }
    hash
}

/// The hash extended by one number.
pub(crate) fn mix(hash: u64, number: u64) -> u64
    ensures { result ≡ mix hash number }
{
    hash.wrapping_mul(1_000_003).wrapping_add(number)
}
