//! The job of the method at the top of a thread, and whether a job is still that one.
ghost use Rattle.std.specs.Prelude.{◌≡◌, ◌↔◌, ◌∷◌, true, false, List, IfOk, IfSome, IfNone, Some, option_map};
ghost use Rattle.bridge_model.specs.Answers.{pick};
ghost use Rattle.bridge_model.specs.Applying.{behaviour_number, job_of};
ghost use Rattle.bridge_model.specs.Objects as objects;
ghost use Rattle.bridge_model.specs.Objects.{object_numbered};
ghost use Rattle.bridge_setting.specs.Settings.{setting_of};
ghost use Rattle.plan_model.specs.Frames as plain;
ghost use Rattle.plan_model.specs.Frames.{depth_of, frames_of};
ghost use Rattle.plan_types.specs.Frames as frames;
ghost use Rattle.plan_types.specs.Frames.{body_of, frame_of, variables_of};

use crate::State;
use crate::fields::{are_fields, named_fields};
use bridge_setting::Setting;
use bridge_tables::fields_of;
use plan_types::{Body, Frame, Job, Variable};
use uno_base::NoMemory;
use uno_types::Tid;
use value_equality::same_body;

impl State {
    /// The job of the method at the top of a thread, where one is there.
    #[tactic(auto, unfolding(bridge_model::specs::Answers::pick, bridge_model::specs::Steps::picked))]
    pub fn pick(&self, setting: &Setting, tid: &Tid) -> Result<Option<Job>, NoMemory>
        ensures { IfOk result (λ j. option_map frames.job_of j ≡ pick (setting_of setting.now) tid.now self.now.side) }
    {
        match body_in(self.stacks.top(tid)) {
            Some(body) => Ok(Some(self.job_of(setting, tid, body)?)),
            None => Ok(None),
        }
    }

    /// The job of a method at the top of a thread.
    #[tactic(auto, unfolding(bridge_model::specs::Applying::job_of))]
    fn job_of(&self, setting: &Setting, tid: &Tid, body: &Body) -> Result<Job, NoMemory>
        ensures { IfOk result (λ j. (b : plain.Body) → (fs : List plain.Frame) → frames_of tid.now self.now.side.stacks ≡ plain.body b ∷ fs → body_of body.now ≡ b
            → frames.job_of j ≡ job_of (setting_of setting.now) tid.now b fs self.now.side.tables) }
    {
        let depth = self.depth(tid)?;
        let behaviour = self.tables.behaviour_of(body.object);
        let own = setting.own_oid(self.alloc, body.object)?;
        let tid = tid.copy()?;
        let fields = self.fields(setting, body.object, behaviour)?;
        let Ok(method) = body.copy(self.alloc) else {
            drop(fields);
            return Err(NoMemory);
        };
        Ok(Job {
            tid,
            frame: Frame::Body(method),
            fields,
            depth,
            behaviour,
            own,
        })
    }

    /// How many frames a thread has.
    fn depth(&self, tid: &Tid) -> Result<u32, NoMemory>
        ensures { IfOk result (λ n. n ≡ depth_of tid.now self.now.side.stacks) }
    {
        match u32::try_from(self.stacks.depth(tid)) {
            Ok(depth) => Ok(depth),
            Err(_) => Err(NoMemory),
        }
    }

    /// The fields of an object of a behaviour under their names.
    fn fields(
        &self,
        setting: &Setting,
        object: u32,
        behaviour: u32,
    ) -> Result<Vec<Variable>, NoMemory>
        requires { behaviour ≡ behaviour_number (object_numbered object self.now.side.tables.objects) }
        ensures { IfOk result (λ xs. variables_of xs.items ≡ objects.variables_of (setting_of setting.now) (object_numbered object self.now.side.tables.objects)) }
    {
        match self.tables.object(object) {
            Some((_, values)) => named_fields(
                self.alloc,
                fields_of(&setting.plan, behaviour),
                values,
            ),
            None => Ok(Vec::new(self.alloc)),
        }
    }

    /// Whether a job is the one that would be picked.
    #[tactic(auto, unfolding(bridge_model::specs::Answers::pick, bridge_model::specs::Steps::picked, bridge_model::specs::Applying::job_of))]
    pub fn is_current(&self, setting: &Setting, job: &Job) -> bool
        ensures { result ≡ true ↔ pick (setting_of setting.now) job.now.tid self.now.side ≡ Some (frames.job_of job.now) }
    {
        match body_in(self.stacks.top(&job.tid)) {
            Some(body) => self.is_job_of(setting, body, job),
            None => false,
        }
    }

    /// Whether a job is that of the method at the top of its thread.
    #[tactic(auto, unfolding(bridge_model::specs::Applying::job_of))]
    fn is_job_of(&self, setting: &Setting, body: &Body, job: &Job) -> bool
        ensures { (b : plain.Body) → (fs : List plain.Frame) → frames_of job.now.tid self.now.side.stacks ≡ plain.body b ∷ fs → body_of body.now ≡ b
            → result ≡ true ↔ job_of (setting_of setting.now) job.now.tid b fs self.now.side.tables ≡ frames.job_of job.now }
    {
        let behaviour = self.tables.behaviour_of(body.object);
        if !is_frame_of(body, &job.frame) || job.behaviour != behaviour {
            return false;
        }
        if job.depth as u64 != self.stacks.depth(&job.tid) {
            return false;
        }
        if !self.has_fields(setting, body.object, behaviour, &job.fields) {
            return false;
        }
        setting.is_own_oid(body.object, job.own.as_str())
    }

    /// Whether variables are the fields of an object of a behaviour.
    fn has_fields(
        &self,
        setting: &Setting,
        object: u32,
        behaviour: u32,
        variables: &[Variable],
    ) -> bool
        requires { behaviour ≡ behaviour_number (object_numbered object self.now.side.tables.objects) }
        ensures { result ≡ true ↔ objects.variables_of (setting_of setting.now) (object_numbered object self.now.side.tables.objects) ≡ variables_of variables.now }
    {
        match self.tables.object(object) {
            Some((_, values)) => are_fields(fields_of(&setting.plan, behaviour), values, variables),
            None => variables.is_empty(),
        }
    }
}

/// The method that a frame is.
pub(crate) fn body_in(frame: Option<&Frame>) -> Option<&Body>
    ensures body { IfSome result (λ b. option_map (λ f. frame_of f.now) frame.entry ≡ Some (plain.body (body_of b.now))) }
    ensures none { IfNone result (plain.is_body (option_map (λ f. frame_of f.now) frame.entry) ≡ false) }
{
    match frame {
        Some(Frame::Body(body)) => Some(body),
        Some(Frame::Base { root: _ }) | Some(Frame::Out(_)) | None => None,
    }
}

/// Whether a frame is this method.
fn is_frame_of(body: &Body, frame: &Frame) -> bool
    ensures { result ≡ true ↔ plain.body (body_of body.now) ≡ frame_of frame.now }
{
    let Frame::Body(other) = frame else {
        return false;
    };
    same_body(body, other)
}
