//! What readers find in the ports, or the number that says why they find nothing.
ghost use Rattle.std.specs.Prelude.{◌≡◌, nat_lt, length, if◌then◌else◌, Ok, Err};
ghost use Rattle.apex_c.specs.Found.{IsPut};

use crate::answer::{NO_CHANNEL, NO_PARTITION, READ};
use apex_ports::Ports;

/// The partition with this number, or `NO_PARTITION`.
pub(crate) fn partition_of(ports: &Ports, number: u32) -> Result<usize, u32>
    ensures { let partitions = length ports.now.config.partitions in
        result ≡ (if nat_lt number partitions then Ok number else Err NO_PARTITION) }
{
    below(number, ports.config().partitions(), NO_PARTITION)
}

/// The channel with this number, or `NO_CHANNEL`.
pub(crate) fn channel_of(ports: &Ports, number: u32) -> Result<usize, u32>
    ensures { let channels = length ports.now.config.channels in
        result ≡ (if nat_lt number channels then Ok number else Err NO_CHANNEL) }
{
    below(number, ports.config().channels(), NO_CHANNEL)
}

// The number if it is below the count, or the answer for a number that isn't.
fn below(number: u32, count: usize, answer: u32) -> Result<usize, u32>
    ensures { result ≡ (if nat_lt number count then Ok number else Err answer) }
{
    if (number as usize) < count {
        Ok(number as usize)
    } else {
        Err(answer)
    }
}

/// Puts what was found into its place. Answers `READ`, or the number that says why nothing was found.
pub(crate) fn put<X: Drop>(found: Result<X, u32>, place: &mut X) -> u32
    ensures { IsPut found result place.old place.new }
{
    match found {
        Ok(value) => {
            *place = value;
            READ
        }
        Err(number) => number,
    }
}
