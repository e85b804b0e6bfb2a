//! From which points of a channel its calls can be made to the end. Only how soon an order is found depends on it.
use crate::answer::OwnLog;
use crate::uses::{Act, End, Use};
use apex_types::{Reply, Validity};
use std::alloc::{AllocError, Global};

/// How many calls of each end are made, and how many messages are taken.
#[derive(Clone, Copy, PartialEq, Eq, PartialOrd, Ord)]
pub(crate) struct Point {
    source: usize,
    destination: usize,
    taken: usize,
}

/// The calls that use a channel at its source and at one destination.
#[derive(Drop)]
pub(crate) struct Pair {
    source: End,
    destination: End,
    /// The depth of the queue; `None` for a sampling channel.
    depth: Option<usize>,
    /// The points from which all calls can be made, sorted, by the number of calls to make.
    ends: Vec<Vec<Point>>,
}

impl Pair {
    /// Searches the points of two ends; `None` if there is no `room` for them. Takes the room that they need.
    pub(crate) fn new(
        alloc: Global,
        logs: &[OwnLog],
        source: End,
        destination: End,
        depth: Option<usize>,
        room: &mut usize,
    ) -> Result<Option<Pair>, AllocError> {
        let mut pair = Pair {
            source,
            destination,
            depth,
            ends: Vec::new(alloc),
        };
        let Some(layers) = pair.all_points(alloc, logs, room)? else {
            return Ok(None);
        };
        pair.ends = pair.points_to_end(alloc, logs, layers)?;
        Ok(Some(pair))
    }

    /// Whether all calls can be made.
    pub(crate) fn has_way(&self) -> bool {
        match self.ends.last() {
            Some(first) => !first.is_empty(),
            None => false,
        }
    }

    /// Whether all calls can still be made after the next call of a partition by an identifier. `waiting` messages wait
    /// before it.
    pub(crate) fn keeps_way(
        &self,
        logs: &[OwnLog],
        made: &[usize],
        waiting: usize,
        p: usize,
        id: u32,
    ) -> bool {
        let source = self.source.made(made);
        let destination = self.destination.made(made);
        let taken = match self.depth {
            Some(_) => self.accepted(source).saturating_sub(waiting),
            None => 0,
        };
        let point = Point {
            source,
            destination,
            taken,
        };
        let next = if self.source.uses_next(made, p, id) {
            self.after_source(point)
        } else if self.destination.uses_next(made, p, id) {
            self.after_destination(logs, point)
        } else {
            return true;
        };
        match next {
            Some(next) => self.is_end(next),
            None => false,
        }
    }

    /// Whether all calls can be made from the point.
    fn is_end(&self, point: Point) -> bool {
        let to_make = self
            .calls()
            .saturating_sub(point.source.saturating_add(point.destination));
        match self.ends.get(to_make) {
            Some(points) => points.binary_search(&point).is_ok(),
            None => false,
        }
    }

    /// The number of calls of both ends.
    fn calls(&self) -> usize {
        self.source
            .uses
            .len()
            .saturating_add(self.destination.uses.len())
    }

    /// How many messages the channel accepted after this many calls of the source.
    fn accepted(&self, source: usize) -> usize {
        match self.source.uses.get(source) {
            Some(one) => one.before,
            None => self.source.accepted,
        }
    }

    /// The point after the source's next call, if it can be made.
    fn after_source(&self, point: Point) -> Option<Point> {
        let one = self.source.uses.get(point.source)?;
        let waiting = self.accepted(point.source).saturating_sub(point.taken);
        let fits = match (one.act, self.depth) {
            (Act::Put, Some(depth)) => waiting < depth,
            (Act::Waiting(shown), _) => waiting == shown,
            _ => true,
        };
        if !fits {
            return None;
        }
        Some(Point {
            source: point.source.saturating_add(1),
            destination: point.destination,
            taken: point.taken,
        })
    }

    /// The point after the destination's next call, if it can be made.
    fn after_destination(&self, logs: &[OwnLog], point: Point) -> Option<Point> {
        let one = self.destination.uses.get(point.destination)?;
        let taken = self.taken_after(logs, point, one)?;
        Some(Point {
            source: point.source,
            destination: point.destination.saturating_add(1),
            taken,
        })
    }

    /// How many messages are taken after a call of the destination, if it can be made.
    fn taken_after(&self, logs: &[OwnLog], point: Point, one: &Use) -> Option<usize> {
        let accepted = self.accepted(point.source);
        let waiting = accepted.saturating_sub(point.taken);
        let fits = match one.act {
            Act::Take => {
                if waiting > 0 && self.shows(logs, one, point.taken) {
                    return Some(point.taken.saturating_add(1));
                }
                false
            }
            Act::Clear => return Some(accepted),
            Act::Waiting(shown) => waiting == shown,
            Act::Read => accepted > 0 && self.shows(logs, one, accepted.saturating_sub(1)),
            Act::Put => false,
        };
        if fits { Some(point.taken) } else { None }
    }

    /// Whether a call of the destination shows the message with a number, and its validity if it has one.
    fn shows(&self, logs: &[OwnLog], one: &Use, number: usize) -> bool {
        let Some(shown) = self.destination.entry(logs, one.index) else {
            return false;
        };
        let Some(written) = self.source.message(logs, number) else {
            return false;
        };
        match &shown.reply {
            Reply::Received(message) => message.bytes() == written.0.bytes(),
            Reply::Read { message, validity } => {
                let age = shown.at.0.saturating_sub(written.1.0);
                let is_valid = age <= self.destination.refresh;
                message.bytes() == written.0.bytes()
                    && is_valid == matches!(validity, Validity::Valid)
            }
            _ => false,
        }
    }

    /// The points that calls lead to, by the number of calls made; `None` if there is no room for them.
    fn all_points(
        &self,
        alloc: Global,
        logs: &[OwnLog],
        room: &mut usize,
    ) -> Result<Option<Vec<Vec<Point>>>, AllocError> {
        let mut layers = Vec::new(alloc);
        let mut layer = Vec::new(alloc);
        layer.push(Point {
            source: 0,
            destination: 0,
            taken: 0,
        })?;
        for _ in 0..self.calls() {
            let next = self.next_points(alloc, logs, layer.as_slice())?;
            if next.len() > *room {
                return Ok(None);
            }
            *room -= next.len();
            layers.push(layer)?;
            layer = next;
        }
        layers.push(layer)?;
        Ok(Some(layers))
    }

    /// The points one call after these, sorted.
    fn next_points(
        &self,
        alloc: Global,
        logs: &[OwnLog],
        points: &[Point],
    ) -> Result<Vec<Point>, AllocError> {
        let mut all = Vec::new(alloc);
        for point in points {
            if let Some(next) = self.after_source(*point) {
                all.push(next)?;
            }
            if let Some(next) = self.after_destination(logs, *point) {
                all.push(next)?;
            }
        }
        all.sort()?;
        without_doubles(alloc, all.as_slice())
    }

    /// Those of the points from which all calls can be made, by the number of calls to make.
    fn points_to_end(
        &self,
        alloc: Global,
        logs: &[OwnLog],
        layers: Vec<Vec<Point>>,
    ) -> Result<Vec<Vec<Point>>, AllocError> {
        let mut ends = Vec::with_capacity(alloc, layers.len())?;
        for layer in layers.into_iter().rev() {
            let kept = self.points_before(alloc, logs, layer, ends.as_slice())?;
            ends.push(kept)?;
        }
        Ok(ends)
    }

    /// Those of the points from which one call leads to the last of the ends.
    fn points_before(
        &self,
        alloc: Global,
        logs: &[OwnLog],
        points: Vec<Point>,
        ends: &[Vec<Point>],
    ) -> Result<Vec<Point>, AllocError> {
        let Some(after) = ends.last() else {
            return Ok(points);
        };
        let mut kept = Vec::new(alloc);
        for point in points.as_slice() {
            let is_end = has_point(after.as_slice(), self.after_source(*point))
                || has_point(after.as_slice(), self.after_destination(logs, *point));
            if is_end {
                kept.push(*point)?;
            }
        }
        Ok(kept)
    }
}

/// Whether the point is one of these, which are sorted.
fn has_point(points: &[Point], point: Option<Point>) -> bool {
    match point {
        Some(point) => points.binary_search(&point).is_ok(),
        None => false,
    }
}

/// Sorted points, each once.
fn without_doubles(alloc: Global, points: &[Point]) -> Result<Vec<Point>, AllocError> {
    let mut single: Vec<Point> = Vec::new(alloc);
    for point in points {
        if single.last() != Some(point) {
            single.push(*point)?;
        }
    }
    Ok(single)
}
