//! The web as a case charges it.
ghost use Rattle.std.specs.Prelude.{◌≡◌, ◌<◌, ◌≤◌, ◌*◌, ◌^◌};
ghost use Rattle.priced_paths.specs.Webs.{IsSound};
ghost use Rattle.priced_paths.specs.CaseGraphs.{node_at, spot_of, is_reached};

use crate::pricing::Pricing;
use crate::web::{Edge, MOST_SPOTS, Web};
use floor_graphs::Graph;

/// The number of the node of a spot, of so many: those that have reached what is asked for come
/// first, and later spots before earlier ones.
#[inline]
pub fn node_of(count: usize, at: usize, reached: bool) -> usize
    requires at { at < count }
    requires few { count ≤ MOST_SPOTS }
    ensures value { result ≡ node_at count at reached }
    ensures within { result < 2 * count }
{
    if reached {
        count - 1 - at
    } else {
        2 * count - 1 - at
    }
}

/// A spot, and whether what the case asks for was reached.
#[derive(Clone, Copy)]
struct Stop {
    at: usize,
    reached: bool,
}

/// The spot of a node.
fn stop_of(count: usize, node: usize) -> Stop
    requires node { node < 2 * count }
    requires few { count ≤ MOST_SPOTS }
    ensures at { result.at ≡ spot_of count node }
    ensures reached { result.reached ≡ is_reached count node }
    ensures within { result.at < count }
{
    if node < count {
        Stop {
            at: count - 1 - node,
            reached: true,
        }
    } else {
        Stop {
            at: 2 * count - 1 - node,
            reached: false,
        }
    }
}

/// The web as a case charges it: a node is a spot where what the case asks for was reached or
/// wasn't.
#[derive(Drop)]
pub struct CaseGraph<'a, P: Pricing> {
    pub pricing: &'a P,
    pub web: &'a Web<P::Kept>,
    pub case: usize,
    pub scale: u32,
    pub height: usize,
    ghost sound: { IsSound (P.Tree.height (P.tree pricing.now)) (P.breadth pricing.now) web.now },
    ghost case_is: { case < P.count pricing.now },
    ghost scale_is: { scale ≡ (P.rate_of pricing.now case).scale },
    ghost scale_small: { scale ≤ 2 ^ 12 },
    ghost height_is: { height ≡ P.Tree.height (P.tree pricing.now) },
}

impl<'a, P: Pricing> CaseGraph<'a, P> {
    ghost use Rattle.std.specs.Prelude.{◌||◌, length};
    ghost use Rattle.priced_paths.specs.CaseGraphs.{charged_edge};
    ghost use Rattle.priced_paths.specs.Webs.{LeadsLater, depth_in};

    /// An edge of a stop under a label, as the case charges it.
    fn charged(&self, stop: Stop, label: usize, edge: Edge) -> Option<(u32, u32)>
        requires at { stop.at < length self.now.web.now.spots.items }
        requires edge { LeadsLater (P.Tree.height (P.tree self.now.pricing.now))
            (P.breadth self.now.pricing.now) self.now.web.now stop.at label edge }
        ensures { result ≡ charged_edge (length self.now.web.now.spots.items)
            (P.rate_of self.now.pricing.now self.now.case).scale (stop.reached
            || P.reaches_at self.now.pricing.now self.now.case (depth_in self.now.web.now stop.at)
            label) edge (P.toll_at self.now.pricing.now self.now.case
            (depth_in self.now.web.now stop.at) label) }
    {
        let depth = self.web.depth(stop.at);
        let charge = self.pricing.toll(self.case, depth, label)?;
        let reaches = self.pricing.reaches(self.case, depth, label);
        let to = node_of(
            self.web.spots.len(),
            edge.to as usize,
            stop.reached || reaches,
        );
        Some((to as u32, self.scale * edge.cost + charge))
    }
}

impl<'a, P: Pricing> Graph for CaseGraph<'a, P> {
    ghost use Rattle.priced_paths.specs.CaseGraphs.{case_of, case_edge, case_width, case_ends, nodes_of};
    ghost use Rattle.priced_paths.specs.LeadBacks.{case_leads_back};

    ghost edge_at = { λ graph. case_edge graph.web.now (case_of (P.toll_at graph.pricing.now)
        (P.reaches_at graph.pricing.now) (P.rate_of graph.pricing.now) graph.case) };

    ghost width = { λ graph. case_width graph.web.now };

    ghost ends_at = { λ graph. case_ends graph.web.now graph.height };

    ghost nodes = { λ graph. nodes_of graph.web.now };

    ghost lead_back = { λ graph. case_leads_back graph.web.now (case_of (P.toll_at graph.pricing.now)
        (P.reaches_at graph.pricing.now) (P.rate_of graph.pricing.now) graph.case) graph.sound };

    fn size(&self) -> u32 {
        2 * self.web.spots.len() as u32
    }

    fn is_end(&self, node: u32) -> bool {
        let stop = stop_of(self.web.spots.len(), node as usize);
        stop.reached && self.web.depth(stop.at) == self.height
    }

    fn span(&self, node: u32) -> (usize, usize) {
        let stop = stop_of(self.web.spots.len(), node as usize);
        let spot = &self.web.spots[stop.at];
        (spot.low, spot.high)
    }

    fn edge(&self, node: u32, label: usize) -> Option<(u32, u32)> {
        let stop = stop_of(self.web.spots.len(), node as usize);
        let edge = self.web.edge(stop.at, label)?;
        self.charged(stop, label, edge)
    }
}
