//! A script, line by line.

use crate::moments::{Told, front_len, line_count, out_after};
use crate::outcome::{Outcome, Parts};
use crate::piece::Piece;
use crate::print::{print_difference, print_untimely};
use crate::request::Asked;
use crate::scene::{Room, Scenes};
use crate::setting::Setting;
use crate::step::{Step, step_of};
use crate::tally::Tally;
use anyhow::{Context, Result, bail};
use std::alloc::Global;
use tool_io::Place;

/// A runner of the commands of a script.
pub trait Run {
    /// Runs a command of a script under a setting, over the files of its scenes.
    fn outcome(
        &self,
        alloc: Global,
        scenes: &Scenes,
        text: &str,
        setting: Setting,
    ) -> Result<Outcome>;
}

/// The state after some lines of a script.
#[derive(Drop)]
struct Stage {
    alloc: Global,
    scenes: Scenes,
    case: String,
    /// The count of runs and of agreeing runs before the case.
    before: Tally,
    lengths: Option<(usize, usize)>,
    failing: Option<(Place, u64)>,
    asked: Option<Asked>,
    written: Vec<u8>,
    tally: Tally,
    /// The fewest cases that the script may have.
    least: u32,
}

impl Stage {
    fn new(alloc: Global) -> Stage {
        Stage {
            alloc,
            scenes: Scenes::new(alloc),
            case: String::new(alloc),
            before: Tally::new(),
            lengths: None,
            failing: None,
            asked: None,
            written: Vec::new(alloc),
            tally: Tally::new(),
            least: 1,
        }
    }

    /// Begins a case.
    fn begin(&mut self, name: &str) -> Result<()> {
        if self.scenes.in_case {
            bail!("an empty line is to end the case before");
        }
        self.case = String::from_str(self.alloc, name)?;
        self.scenes.in_case = true;
        self.scenes.room = Room::of(name);
        self.before = self.tally;
        Ok(())
    }

    /// Ends the case, if there is one.
    fn end(&mut self) -> Result<()> {
        if !self.scenes.in_case {
            return Ok(());
        }
        let runs = self.tally.runs.saturating_sub(self.before.runs);
        let agreeing = self
            .tally
            .agreeing_runs
            .saturating_sub(self.before.agreeing_runs);
        if runs == 0 {
            bail!("a case without a run");
        }
        if self.failing.is_some() || self.lengths.is_some() {
            bail!("a failing call or lengths without a run");
        }
        self.tally.count_case(runs == agreeing);
        self.scenes.own.clear();
        self.scenes.in_case = false;
        Ok(())
    }

    /// Begins a file.
    fn begin_file(&mut self, name: &str, piece: Option<Piece<'_>>) -> Result<()> {
        self.scenes.current().files.begin(name)?;
        match piece {
            Some(piece) => self.scenes.add(piece),
            None => Ok(()),
        }
    }

    /// Takes the command of a run. Its expected outcome follows.
    fn ask(&mut self, line: usize, words: &str) -> Result<()> {
        if !self.scenes.in_case {
            bail!("a run outside a case");
        }
        self.asked = Some(Asked {
            line,
            words: String::from_str(self.alloc, words)?,
            lengths: self.lengths.take(),
            failing: self.failing.take(),
            wanted: Outcome::new(self.alloc),
            told: Vec::new(self.alloc),
            meant: Parts::none(),
        });
        Ok(())
    }

    /// Takes a part of the expected outcome of the run before the line.
    fn want(&mut self, step: Step<'_>) -> Result<()> {
        let asked = self.asked.as_mut().context("no run before this line")?;
        match step {
            Step::Status(status) => asked.wanted.status = status,
            Step::Output(piece) => {
                let bytes = self.scenes.bytes_of(piece)?;
                asked.wanted.output.extend_from_slice(&bytes)?;
            }
            Step::OutputAfter(lines, text) => {
                let bytes = self.scenes.bytes_of(Piece::Line(text))?;
                asked.wanted.output.extend_from_slice(&bytes)?;
                let end = asked.wanted.output.len();
                asked.told.push(Told { lines, end })?;
            }
            Step::Errors(piece) => {
                let bytes = self.scenes.bytes_of(piece)?;
                asked.wanted.errors.extend_from_slice(&bytes)?;
            }
            Step::Differs(name) => asked.meant = Parts::named(name).context("no such part")?,
            _ => {}
        }
        Ok(())
    }

    /// Makes the requested run, if there is one, for each length of its file.
    fn settle(&mut self, rt: &impl Print, runner: &impl Run) -> Result<()> {
        let Some(asked) = self.asked.take() else {
            return Ok(());
        };
        let Some((from, to)) = asked.lengths else {
            return self.run(rt, runner, &asked, None);
        };
        if to < from {
            bail!("no length from {from} to {to}");
        }
        for length in (from..=to).rev() {
            self.scenes.own.files.cut(length)?;
            self.run(rt, runner, &asked, Some(length))?;
        }
        Ok(())
    }

    /// Makes a run with each limit of its reads, and the runs that check when its lines are out.
    fn run(
        &mut self,
        rt: &impl Print,
        runner: &impl Run,
        asked: &Asked,
        length: Option<usize>,
    ) -> Result<()> {
        let blocks = self.scenes.blocks()?;
        for block in &blocks {
            let setting = Setting {
                block: *block,
                length,
                failing: asked.failing,
            };
            self.run_under(rt, runner, asked, setting)?;
        }
        if asked.told.is_empty() {
            return Ok(());
        }
        self.run_by_lines(rt, runner, asked, length)
    }

    /// Makes a run under a setting.
    fn run_under(
        &mut self,
        rt: &impl Print,
        runner: &impl Run,
        asked: &Asked,
        setting: Setting,
    ) -> Result<()> {
        let found = runner.outcome(self.alloc, &self.scenes, asked.words.as_str(), setting)?;
        let parts = Parts::of(&found, &asked.wanted);
        self.tally.count_run(parts == asked.meant);
        if parts != asked.meant {
            let case = self.case.as_str();
            print_difference(rt, self.alloc, case, asked, setting, &found, parts)?;
        }
        self.written = found.output;
        Ok(())
    }

    /// Makes the read after each line of the trace fail, and compares the output at that point.
    fn run_by_lines(
        &mut self,
        rt: &impl Print,
        runner: &impl Run,
        asked: &Asked,
        length: Option<usize>,
    ) -> Result<()> {
        let trace = Vec::from_slice(self.alloc, self.scenes.find(asked.trace())?)?;
        for lines in 0..=line_count(&trace) {
            // the first call opens the trace, and each later one reads a byte
            let call = (front_len(&trace, lines) as u64).saturating_add(1);
            let setting = Setting {
                block: 1,
                length,
                failing: Some((Place::Trace, call)),
            };
            self.run_to_line(rt, runner, asked, setting, lines)?;
        }
        Ok(())
    }

    /// Makes a run whose trace fails after `lines` lines.
    fn run_to_line(
        &mut self,
        rt: &impl Print,
        runner: &impl Run,
        asked: &Asked,
        setting: Setting,
        lines: usize,
    ) -> Result<()> {
        let found = runner.outcome(self.alloc, &self.scenes, asked.words.as_str(), setting)?;
        let wanted = out_after(&asked.told, lines, &asked.wanted.output);
        let agrees = found.output.as_slice() == wanted;
        self.tally.count_run(agrees);
        if !agrees {
            let case = self.case.as_str();
            print_untimely(rt, self.alloc, case, asked, setting, &found.output, wanted)?;
        }
        Ok(())
    }

    /// Keeps the output of the last run as a file.
    fn keep(&mut self, name: &str) -> Result<()> {
        let files = &mut self.scenes.current().files;
        files.begin(name)?;
        files.add(&self.written)
    }

    /// Takes a line that isn't a part of an expected outcome.
    fn take(&mut self, line: usize, step: Step<'_>) -> Result<()> {
        match step {
            Step::Blank => self.end(),
            Step::Case(name) => self.begin(name),
            Step::File(name, piece) => self.begin_file(name, piece),
            Step::Add(piece) => self.scenes.add(piece),
            Step::Repeat(times, piece) => self.scenes.repeat(times, piece),
            Step::Set(place, byte) => self.scenes.current().files.set(place, byte),
            Step::Cut(length) => self.scenes.current().files.cut(length),
            Step::Block(numbers) => self.scenes.current().set_blocks(numbers),
            Step::Run(words) => self.ask(line, words),
            Step::Keep(name) => self.keep(name),
            Step::Least(cases) => {
                self.least = cases.max(1);
                Ok(())
            }
            Step::Each(from, to) => {
                self.lengths = Some((from, to));
                Ok(())
            }
            Step::Fail(place, call) => {
                self.failing = Some((place, call));
                Ok(())
            }
            _ => Ok(()),
        }
    }

    fn play(&mut self, rt: &impl Print, runner: &impl Run, line: usize, text: &str) -> Result<()> {
        let step = step_of(text)?;
        if step.is_wanted() {
            return self.want(step);
        }
        self.settle(rt, runner)?;
        self.take(line, step)
    }
}

/// Plays a script, prints each difference between a run and its script, and counts the runs that
/// agree.
pub fn play(rt: &impl Print, runner: &impl Run, alloc: Global, script: &str) -> Result<Tally> {
    let mut stage = Stage::new(alloc);
    stage.scenes.common.set_blocks("65536")?;
    for (place, text) in script.lines().enumerate() {
        let line = place.saturating_add(1);
        stage
            .play(rt, runner, line, text)
            .context(format_args!("line {line}"))?;
    }
    stage.settle(rt, runner)?;
    stage.end()?;
    let (cases, least) = (stage.tally.cases, stage.least);
    if cases < least {
        bail!("{cases} cases, where there are to be at least {least}");
    }
    Ok(stage.tally)
}
