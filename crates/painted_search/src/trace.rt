// How a search finds its path: by the labels, from the goal back to the root.
ghost use Rattle.std.specs.Prelude.{◌≡◌, ◌≢◌, IsTrue};
ghost use Rattle.theory.specs.Cut.{holds};
ghost use Rattle.net_incidence.specs.Graph.{bare};
ghost use Rattle.painted_search.specs.Path.{IsFreePath, LeadAlong};
ghost use Rattle.painted_search.specs.Tree.{IsSearching, IsSameButWalk};

use crate::grow::Quest;
use crate::painter::Painter;
use crate::work::Work;

impl<P: Painter> Quest<'_, P> {
    /// Makes the walk the path to the goal.
    pub(crate) fn trace(&self, work: &mut Work)
        requires searching { IsSearching self.now.net.now (P.ready self.now.painter.now) (P.paint self.now.painter.now) self.now.from.0 work.old }
        requires apart { self.now.from.0 ≢ self.now.to.0 }
        requires met { IsTrue (holds work.old.reached self.now.to.0) }
        ensures path { IsFreePath (bare self.now.net.now) (P.paint self.now.painter.now work.old.flows work.old.potentials) work.new.walk
            self.now.from.0 self.now.to.0 }
        ensures lead { LeadAlong (bare self.now.net.now) work.new.labels work.new.walk }
        ensures same { IsSameButWalk work.old work.new }
    {
        work.clear_walk();
        let mut node = self.to;
        while let Some(step) = work.label(node) {
            work.push_step(step);
            node = self.net.begin(step);
        }
        work.turn_walk();
    }
}
