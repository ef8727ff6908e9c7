// What a worker remembers from one term to the next.
ghost use Rattle.std.specs.Prelude.{◌≡◌, List, None, true};
ghost use Rattle.terms_api.specs.Terms.{Store, Entered};
ghost use Rattle.rewrite_model.specs.Rule.{Rule};
ghost use Rattle.settings.specs.declared.parts.Settings.{Settings};
ghost use Rattle.term_lines.specs.Written.{MayRecall};
ghost use Rattle.rewrite_workers.specs.Working.{Recalls};
ghost use Rattle.work_order.specs.Works.{remembers_results};

use innermost::Memo;
use terms_api::Terms;

/// Results of reductions, and the epoch of the desk when it was left last. It is a later one where
/// the desk lost a row since.
#[derive(Drop)]
pub(crate) struct Remembered<M> {
    pub memo: M,
    pub epoch: Option<u64>,
}

impl<M: Memo> Remembered<M> {
    /// With what no desk was entered yet.
    pub(crate) fn new(memo: M) -> Self
        ensures memo { result.memo ≡ memo }
        ensures epoch { result.epoch ≡ None }
    {
        Remembered { memo, epoch: None }
    }

    /// Forgets all where the desk, which was entered, may have lost a row since it was left.
    pub(crate) fn enter<T: Terms>(&mut self, desk: &T)
        requires inside { (T.store desk.now).inside ≡ true }
        ensures { (s : Settings) (rules : List Rule) (left : Store)
            → Recalls s rules left (M.map self.old.memo) self.old.epoch
            → Entered left (T.store desk.now)
            → MayRecall (remembers_results s rules) rules (T.store desk.now) (M.map self.new.memo) }
    {
        match (self.epoch, desk.epoch()) {
            (Some(left), Some(now)) if left == now => {}
            _ => self.memo.forget(),
        }
    }

    /// Notes the epoch of the desk, before it is left.
    pub(crate) fn leave<T: Terms>(&mut self, desk: &T)
        requires inside { (T.store desk.now).inside ≡ true }
        ensures memo { self.new.memo ≡ self.old.memo }
        ensures epoch { self.new.epoch ≡ (T.store desk.now).epoch }
    {
        self.epoch = desk.epoch();
    }
}
