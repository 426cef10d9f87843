//! What finds the first of the configurations that are wanted, by whatever search.
ghost use Rattle.std.specs.Prelude.{◌≡◌, ◌↔◌, IsTrue, IfOk, None, length};
ghost use Rattle.std.specs.Option.{ForSome, option_map};
ghost use Rattle.std.specs.List.{list_all};
ghost use Rattle.prod_model.specs.declared.model.Model.{Model};
ghost use Rattle.prod_model.specs.declared.model.Order.{Order};
ghost use Rattle.prod_model.specs.ExprBounds.{is_truth_at};
ghost use Rattle.config_value.specs.Shaped.{is_shaped};
ghost use Rattle.criteria_order.specs.Wanted.{IsFirstWanted, SomeIsWanted};

use config_value::Configuration;
use prod_model::Expr;
use std::alloc::AllocError;

/// A solver stands for one problem and one order, which no call changes.
pub trait Solver {
    /// The model whose configurations it finds.
    ghost problem: { Self → Model };

    /// The order in which it finds them, and whose requests may be kept.
    ghost order: { Self → Order };

    /// The first in rank order of the configurations that satisfy the model, meet the kept requests
    /// and the extras, and rank after `after` where it is given. `None` where there is none.
    /// `AllocError` where memory runs out.
    fn best(
        &mut self,
        keep: &[bool],
        after: Option<&Configuration>,
        extra: &[Expr],
    ) -> Result<Option<Configuration>, AllocError>
        requires each_request { length keep.now ≡ length (order self.old).requests }
        requires shaped { ForSome after (λ d. IsTrue (is_shaped (problem self.old) d.now)) }
        requires truths { IsTrue
            (list_all (is_truth_at (problem self.old) (problem self.old).root) extra.now) }

        ensures best { IfOk result (IsFirstWanted (problem self.old) (order self.old) keep.now
            (option_map (λ d. d.now) after.entry) extra.now) }
        ensures same_problem { problem self.new ≡ problem self.old }
        ensures same_order { order self.new ≡ order self.old };

    /// Whether some configuration satisfies the model and meets the kept requests and the extras.
    /// `AllocError` where memory runs out.
    fn exists(&mut self, keep: &[bool], extra: &[Expr]) -> Result<bool, AllocError>
        requires each_request { length keep.now ≡ length (order self.old).requests }
        requires truths { IsTrue
            (list_all (is_truth_at (problem self.old) (problem self.old).root) extra.now) }

        ensures exists { IfOk result (λ b. IsTrue b
            ↔ SomeIsWanted (problem self.old) (order self.old) keep.now None extra.now) }
        ensures same_problem { problem self.new ≡ problem self.old }
        ensures same_order { order self.new ≡ order self.old };
}
