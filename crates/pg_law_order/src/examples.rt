//! What the definitions say of small traces.

ghost use Rattle.std.specs.Prelude.{◌≡◌, ◌∷◌, [], None, Some, length, map};
ghost use Rattle.pg_law_order.specs.Examples.{created, joined, locked, unlocked};
ghost use Rattle.pg_law_order.specs.Schedules.{along};
ghost use Rattle.pg_run_trace.specs.Races.{first_unordered, races_of, schedule_of};

/// Two stores under a mutex are ordered.
pub fn a_mutex_orders()
    ensures order { first_unordered locked ≡ None }
    ensures races { races_of locked ≡ [] }
{}

/// Without the mutex each races with the other.
pub fn stores_race()
    ensures order { first_unordered unlocked ≡ Some (3, 4) }
    ensures races { races_of unlocked ≡ record { instr = record { 0 = 3 }; step = 3; with = 4 } ∷ record { instr = record { 0 = 12 }; step = 4; with = 3 } ∷ [] }
    ensures turns { length (schedule_of unlocked).turns ≡ 5 }
    ensures replies { (schedule_of unlocked).replies ≡ 0 ∷ 0 ∷ 0 ∷ 0 ∷ 0 ∷ [] }
{}

/// A create and a join order what is before and behind them.
pub fn a_create_and_a_join_order()
    ensures order { first_unordered joined ≡ None }
    ensures races { races_of joined ≡ [] }
{}

/// The write of a create races with a load of another thread. The load alone becomes a turn.
pub fn a_create_writes()
    ensures order { first_unordered created ≡ Some (3, 4) }
    ensures races { races_of created ≡ record { instr = record { 0 = 11 }; step = 3; with = 4 } ∷ [] }
{}

/// The store behind the join is behind its thread's last turn, and left out of the run along the schedule.
pub fn a_step_behind_the_last_turn_is_left_out()
    ensures { length (along (schedule_of joined) joined) ≡ 7 }
{}
