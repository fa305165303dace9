//! What becomes of packets under rules that no policy compiles to.

ghost use Rattle.std.specs.Prelude.{◌≡◌, [], ◌∷◌, None, Some};
ghost use Rattle.merlin_model.specs.Machine.{Delivered, Dropped, acting_rule, start};
ghost use Rattle.merlin_model.specs.Tests.{plain_trace};
ghost use Rattle.merlin_model.specs.declared.config.Action.TheVariants.{SetVlan, StripVlan, Enqueue};
ghost use Rattle.merlin_model.specs.declared.config.Out.TheVariants.{Port};
ghost use Rattle.packet_trace.specs.declared.trace.TheConstants.{MAX_HOPS};
ghost use Rattle.value_tests.specs.Networks.{two_switches, any, tagged, untagged, first, second};
ghost use Rattle.value_tests.specs.Networks.{at_s1, to, turn, every_way_rules};
ghost use Rattle.value_tests.specs.Tracing.{web, forged, left, by_queue, in_class, RunsAs};
ghost use Rattle.value_tests.specs.Tracing.{RunsOverOne, RunsBeside, RunsFrom, frame_at};
ghost use Rattle.value_tests.specs.Tracing.{to_and_fro, last_class, no_class, dropping, keeping};

/// Under the rules for every way.
pub fn over_one_switch()
    ensures own { RunsOverOne every_way_rules [] web (left 0 ∷ left 2 ∷ []) (Delivered 1 web) }
    ensures forged { RunsOverOne every_way_rules [] forged (left 0 ∷ []) (Dropped 2) }
{}

/// Which rule acts on a frame at a location.
pub fn rules_that_fit()
    ensures untagged { acting_rule every_way_rules (frame_at 2 [] web)
        ≡ Some (at_s1 20 (untagged 1 first second None None) (to 2 ∷ [])) }
    ensures tagged { acting_rule every_way_rules (frame_at 2 (1 ∷ []) web)
        ≡ Some (at_s1 100 (tagged 1 2) (StripVlan ∷ to 2 ∷ [])) }
    ensures forged { acting_rule every_way_rules (frame_at 2 [] forged) ≡ Some (at_s1 0 any []) }
    ensures elsewhere { acting_rule every_way_rules (frame_at 3 [] web) ≡ None }
{}

/// Which of two rules acts, and what actions do.
pub fn what_acts_and_how()
    ensures drops { RunsBeside 9 [] (left 0 ∷ []) (Dropped 2) }
    ensures first { RunsBeside 5 [] (left 0 ∷ left 2 ∷ []) (Delivered 1 web) }
    ensures back { RunsBeside 9 (to 1 ∷ []) (left 0 ∷ []) (Dropped 2) }
    ensures no_link { RunsBeside 9 (to 3 ∷ []) (left 0 ∷ []) (Dropped 2) }
    ensures turns { RunsBeside 9 (turn ∷ []) (left 0 ∷ left 2 ∷ []) (Delivered 0 web) }
    ensures tags { RunsBeside 9 (SetVlan 7 ∷ to 2 ∷ []) (left 0 ∷ left 2 ∷ []) (Dropped 1) }
    ensures queue { RunsBeside 9 (Enqueue (Port 2) 4 ∷ []) (left 0 ∷ by_queue 2 4 ∷ [])
        (Delivered 1 web) }
{}

/// A frame at s1 goes on to s2, which sends it back; then it leaves s1 as it is told.
pub fn to_and_fro()
    ensures there { RunsAs two_switches (to_and_fro (to 2)) web
        (left 0 ∷ left 2 ∷ left 3 ∷ left 2 ∷ []) (Delivered 1 web) }
    ensures on { plain_trace two_switches (to_and_fro turn) 64 (start 0 web) ≡ None }
{}

/// What a host's lists say of its packet.
pub fn at_the_host()
    ensures last { RunsFrom last_class (in_class 0 3 ∷ left 2 ∷ []) (Delivered 1 web) }
    ensures none { RunsFrom no_class (left 0 ∷ left 2 ∷ []) (Delivered 1 web) }
    ensures dropped { RunsFrom dropping [] (Dropped 0) }
    ensures kept { RunsFrom keeping (left 0 ∷ left 2 ∷ []) (Delivered 1 web) }
{}

/// A trace makes at most 65,536 hops.
pub fn hops()
    ensures { MAX_HOPS ≡ 65536 }
{}
