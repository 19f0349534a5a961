//! The picture of a journal: its lanes, its marks on them, and what says how the run ended.

use crate::lanes::{HEIGHT, Lanes, TOP};
use crate::scale::Scale;
use crate::svg::{Place, Svg};
use crate::timeline::{Deed, Kind, Mark, Posted, ThreadName, Timeline};
use effect_journal::Entry;
use global_ptr::Standing;
use std::alloc::{AllocError, Global};

/// How many entries are drawn at most.
const MOST: usize = 5_000;

/// What stands right of the lanes, in tenths of a pixel, and below them, in pixels.
const RIGHT: u64 = 600;

const BELOW: u64 = 44;

const DIAMOND: &str = "M0 -6L6 0L0 6L-6 0z";

const CROSS: &str = "M-5 -5L5 5M-5 5L5 -5";

/// The kinds of requests.
const KINDS: [Kind; 5] = [Kind::Call, Kind::Cast, Kind::Get, Kind::Put, Kind::Make];

/// The picture of the entries of a journal.
pub(crate) fn picture(alloc: Global, entries: &[Entry]) -> Result<String, AllocError> {
    let drawn = match entries.get(..MOST) {
        Some(front) => front,
        None => entries,
    };
    let timeline = Timeline::of(alloc, drawn)?;
    let lanes = Lanes::of(alloc, timeline.marks.as_slice())?;
    let scale = Scale::to(timeline.end, timeline.marks.len());
    let end = ending(alloc, entries)?;
    let count = entries.len();
    let title = format!(in alloc;
        "{end}: {count} entries, {} steps in a time of {}",
        timeline.steps, timeline.end
    )?;
    let width = scale.right().saturating_add(RIGHT);
    let height = lanes.bottom().saturating_add(BELOW);
    let mut drawing = Drawing {
        svg: Svg::new(alloc, width, height, title.as_str())?,
        alloc,
        scale,
        lanes,
    };
    drawing.head(title.as_str())?;
    drawing.background()?;
    drawing.marks(timeline.marks.as_slice())?;
    if drawn.len() < count {
        let note = format!(in alloc;
            "cut here: the first {} of {count} entries are drawn",
            drawn.len()
        )?;
        drawing.stop(timeline.end, "cut", note.as_str())?;
    } else {
        drawing.stop(timeline.end, "stop", end.as_str())?;
    }
    drawing.svg.end()
}

/// How the run ended, as the journal says.
fn ending(alloc: Global, entries: &[Entry]) -> Result<String, AllocError> {
    let Some(Entry::End { standing, by }) = entries.last() else {
        return format!(in alloc; "no end");
    };
    match (*standing, *by) {
        (Standing::Done(value), _) => format!(in alloc; "done {value}"),
        (Standing::Blocked(left), _) => format!(in alloc; "blocked {left}"),
        (Standing::Limit(steps), _) => format!(in alloc; "limit {steps}"),
        (Standing::Fault(fault), Some(by)) => {
            format!(in alloc;
                "fault {} line {} by {} {}",
                fault.kind.name(),
                fault.line,
                by.processor,
                by.thread
            )
        }
        (Standing::Fault(fault), None) => {
            format!(in alloc; "fault {} line {}", fault.kind.name(), fault.line)
        }
    }
}

/// The word for a kind of requests, which is its class in the style.
fn word(kind: Kind) -> &'static str {
    match kind {
        Kind::Call => "call",
        Kind::Cast => "cast",
        Kind::Get => "get",
        Kind::Put => "put",
        Kind::Make => "make",
    }
}

fn word_of(posted: Option<Posted>) -> &'static str {
    match posted {
        Some(posted) => word(posted.kind),
        None => "none",
    }
}

/// The class of what a processor's threads do.
fn shade(processors_before: usize) -> &'static str {
    match processors_before % 8 {
        0 => "p0 b",
        1 => "p1 b",
        2 => "p2 b",
        3 => "p3 b",
        4 => "p4 b",
        5 => "p5 b",
        6 => "p6 b",
        _ => "p7 b",
    }
}

/// A picture that is being drawn.
#[derive(Drop)]
struct Drawing {
    svg: Svg,
    alloc: Global,
    scale: Scale,
    lanes: Lanes,
}

impl Drawing {
    /// Draws the title, and what the marks mean.
    fn head(&mut self, title: &str) -> Result<(), AllocError> {
        for kind in KINDS {
            self.svg.arrowhead(word(kind))?;
        }
        self.svg.text(Place { x: 100, y: 20 }, "h", title)?;
        let bar = (Place { x: 100, y: 30 }, Place { x: 300, y: 40 });
        self.svg.rectangle(bar.0, bar.1, "p0 b", "slice")?;
        let meaning = "a thread's steps";
        self.svg.text(Place { x: 350, y: 39 }, "", meaning)?;
        let dashes = (Place { x: 1_300, y: 35 }, Place { x: 1_550, y: 35 });
        self.svg.line(dashes.0, dashes.1, "wait")?;
        let meaning = "waits for its request";
        self.svg.text(Place { x: 1_600, y: 39 }, "", meaning)?;
        let mut x: u64 = 2_850;
        for kind in KINDS {
            let from = Place { x, y: 35 };
            let to = Place {
                x: x.saturating_add(220),
                y: 35,
            };
            let meaning = Place {
                x: x.saturating_add(270),
                y: 39,
            };
            self.svg.arrow(from, to, word(kind))?;
            self.svg.text(meaning, "", word(kind))?;
            x = x.saturating_add(600);
        }
        Ok(())
    }

    /// Draws the bands of the processors with the names of their lanes, and the axis.
    fn background(&mut self) -> Result<(), AllocError> {
        let (left, right) = (self.scale.left(), self.scale.right());
        let bottom = self.lanes.bottom();
        for at in 0..self.lanes.processors.len() {
            self.band(at, right)?;
        }
        for at in 0..self.lanes.threads.len() {
            let Some(thread) = self.lanes.threads.get(at).copied() else {
                continue;
            };
            let name = format!(in self.alloc; "thread {}", thread.thread)?;
            let top = self.lanes.thread_top(thread);
            self.name(top, name.as_str())?;
        }
        self.axis(bottom)?;
        let (from, to) = (Place { x: left, y: TOP }, Place { x: left, y: bottom });
        self.svg.line(from, to, "grid")
    }

    /// Draws the band of a processor, the first of which is at 0, and its name.
    fn band(&mut self, at: usize, right: u64) -> Result<(), AllocError> {
        let Some(processor) = self.lanes.processors.get(at).copied() else {
            return Ok(());
        };
        let next = self.lanes.processors.get(at + 1).copied();
        let top = self.lanes.processor_top(processor);
        let end = match next {
            Some(next) => self.lanes.processor_top(next),
            None => self.lanes.bottom(),
        };
        let name = format!(in self.alloc; "processor {processor}")?;
        let (from, to) = (
            Place { x: 0, y: top },
            Place {
                x: right,
                y: end.saturating_sub(4),
            },
        );
        self.svg.rectangle(from, to, "band", name.as_str())?;
        self.name(top, name.as_str())
    }

    /// Draws the name of a lane.
    fn name(&mut self, top: u64, name: &str) -> Result<(), AllocError> {
        let at = Place {
            x: self.scale.left().saturating_sub(60),
            y: top.saturating_add(12),
        };
        self.svg.text(at, "end", name)
    }

    /// Draws the axis: the time in steps.
    fn axis(&mut self, bottom: u64) -> Result<(), AllocError> {
        let tick = self.scale.tick();
        let mut time: u64 = 0;
        for _ in 0..1_000 {
            if time > self.scale.end() {
                break;
            }
            let x = self.scale.at(time);
            let label = format!(in self.alloc; "{time}")?;
            self.svg
                .line(Place { x, y: TOP - 8 }, Place { x, y: bottom }, "grid")?;
            self.svg
                .text(Place { x, y: TOP - 12 }, "s", label.as_str())?;
            time = time.saturating_add(tick);
        }
        let at = Place {
            x: self.scale.left().saturating_sub(60),
            y: TOP - 12,
        };
        self.svg.text(at, "s end", "time in steps")
    }

    /// Draws the marks, and above them the arrows.
    fn marks(&mut self, marks: &[Mark]) -> Result<(), AllocError> {
        for mark in marks {
            self.mark(*mark)?;
        }
        for mark in marks {
            self.request(*mark)?;
        }
        Ok(())
    }

    /// Draws a mark on its lane.
    fn mark(&mut self, mark: Mark) -> Result<(), AllocError> {
        let (left, right) = (self.scale.at(mark.start), self.scale.at(mark.end));
        let entry = mark.entry;
        match mark.deed {
            Deed::Slice(thread) => self.slice(mark, thread),
            Deed::Wait(thread) => {
                let y = self.middle(self.lanes.thread_top(thread));
                self.svg
                    .line(Place { x: left, y }, Place { x: right, y }, "wait")
            }
            Deed::Serve(processor, posted) => {
                let kind = word_of(posted);
                let note = format!(in self.alloc; "entry {entry}: {kind}")?;
                let top = self.lanes.processor_top(processor);
                let from = Place {
                    x: left,
                    y: top.saturating_add(3),
                };
                let to = Place {
                    x: right,
                    y: top.saturating_add(13),
                };
                self.svg.rectangle(from, to, kind, note.as_str())
            }
            Deed::Make(processor, _) => {
                let note = format!(in self.alloc; "entry {entry}: processor {processor} is made")?;
                let y = self.middle(self.lanes.processor_top(processor));
                self.svg
                    .figure(Place { x: right, y }, DIAMOND, "make", note.as_str())
            }
            Deed::Fault(thread) => {
                let y = self.middle(self.lanes.thread_top(thread));
                self.svg
                    .figure(Place { x: right, y }, CROSS, "fault", "fault")
            }
        }
    }

    /// Draws the steps that a thread makes in one go, with their number where there is room for it.
    fn slice(&mut self, mark: Mark, thread: ThreadName) -> Result<(), AllocError> {
        let steps = mark.end.saturating_sub(mark.start);
        let (left, right) = (self.scale.at(mark.start), self.scale.at(mark.end));
        let top = self.lanes.thread_top(thread);
        let before = self.lanes.processors_before(thread.processor);
        let number = format!(in self.alloc; "{steps}")?;
        let note = format!(in self.alloc;
            "entry {}: {steps} steps from {}",
            mark.entry, mark.start
        )?;
        let from = Place {
            x: left,
            y: top.saturating_add(2),
        };
        let to = Place {
            x: right.max(left.saturating_add(10)),
            y: top.saturating_add(14),
        };
        self.svg.rectangle(from, to, shade(before), note.as_str())?;
        let room = right.saturating_sub(left);
        if (number.len() as u64).saturating_mul(60).saturating_add(30) > room {
            return Ok(());
        }
        let at = Place {
            x: left.saturating_add(20),
            y: top.saturating_add(11),
        };
        self.svg.text(at, "s", number.as_str())
    }

    /// Draws the arrow of a request, from the lane of the thread that posted it to where it is served.
    fn request(&mut self, mark: Mark) -> Result<(), AllocError> {
        let (processor, posted) = match mark.deed {
            Deed::Serve(processor, Some(posted)) => (processor, posted),
            Deed::Make(processor, Some(posted)) => (processor, posted),
            _ => return Ok(()),
        };
        let from = Place {
            x: self.scale.at(posted.at),
            y: self.middle(self.lanes.thread_top(posted.by)),
        };
        let to = match mark.deed {
            Deed::Make(..) => mark.end,
            _ => mark.start,
        };
        let to = Place {
            x: self.scale.at(to),
            y: self.middle(self.lanes.processor_top(processor)),
        };
        self.svg.arrow(from, to, word(posted.kind))
    }

    /// The middle of a lane.
    fn middle(&self, top: u64) -> u64 {
        top.saturating_add(HEIGHT / 2)
    }

    /// Draws where the run, or the picture, ends, and says so below.
    fn stop(&mut self, time: u64, class: &str, note: &str) -> Result<(), AllocError> {
        let x = self.scale.at(time);
        let bottom = self.lanes.bottom();
        let (from, to) = (
            Place { x, y: TOP - 8 },
            Place {
                x,
                y: bottom.saturating_add(8),
            },
        );
        self.svg.line(from, to, class)?;
        let at = Place {
            x: x.saturating_add(40),
            y: bottom.saturating_add(26),
        };
        self.svg.text(at, "end", note)
    }
}
