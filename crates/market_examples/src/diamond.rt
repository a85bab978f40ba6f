//! Routes over a diamond of four zones, and the zones that they reach.

ghost use Rattle.std.specs.Prelude.{◌≡◌, ◌==◌, ◌+◌, [], ◌∷◌, Some, None, if◌then◌else◌};
ghost use Rattle.zone_graph.specs.Reach.{entering_room, leaving_room, zones_beyond, zones_towards};
ghost use Rattle.zone_graph.specs.Route.{best_route};
ghost use Rattle.market_examples.specs.Diamond.{all_but, back_over, diamond, forward_over};

/// Of two routes as short, the one over the lesser borders is best, and without room on one of its
/// borders the other one is; energy goes back over the same borders.
pub fn best_routes()
    ensures lesser { best_route diamond (λ _. 1) 0 3 ≡ Some (forward_over 0 ∷ forward_over 2 ∷ []) }
    ensures other { best_route diamond (all_but 2) 0 3 ≡ Some (forward_over 1 ∷ forward_over 3 ∷ []) }
    ensures back { best_route diamond (all_but 3) 3 0 ≡ Some (back_over 2 ∷ back_over 0 ∷ []) }
    ensures round { best_route diamond (all_but 0) 0 1 ≡ Some (forward_over 1 ∷ forward_over 3 ∷ back_over 2 ∷ []) }
    ensures none { best_route diamond (λ _. 0) 0 3 ≡ None }
    ensures home { best_route diamond (λ _. 0) 2 2 ≡ Some [] }
{}

/// The zones that a zone is reached from and those that it reaches, and the room of the arcs into and
/// out of some zones.
pub fn reached_zones()
    ensures towards { zones_towards diamond (λ arc. if arc.border == 2 then (if arc.forward then 3 else 0) else 0) 3 ≡ 1 ∷ 3 ∷ [] }
    ensures beyond { zones_beyond diamond (λ arc. if arc.border == 2 then (if arc.forward then 3 else 0) else 0) 3 ≡ 3 ∷ [] }
    ensures entering { entering_room diamond (λ arc. arc.border + 1) (2 ∷ 3 ∷ []) ≡ 5 }
    ensures leaving { leaving_room diamond (all_but 1) (0 ∷ []) ≡ 7 }
{}
