//! Laws of what is owed. Each function does nothing: what it ensures are the laws.

ghost use Rattle.std.specs.Prelude.{◌≡◌, ◌≢◌, ℕ, ◌<◌, ◌≤◌, false, true, Bool, List, [], ◌∷◌, ◌++◌, filter};
ghost use Rattle.std.specs.List.{list_all, AllByRecursion};
ghost use Rattle.hb_base.specs.ByteLists.{AreBytes};
ghost use Rattle.hb_base.specs.Limits.{IsTransaction};
ghost use Rattle.hb_base.specs.Numbers.{Numbers, AreSound};
ghost use Rattle.hb_wire.specs.declared.vote.Vote.{Vote};
ghost use Rattle.hb_wire.specs.Votes.{epoch_of};
ghost use Rattle.hb_rules.specs.Hearing.{Hearing};
ghost use Rattle.hb_rules.specs.Slots.{Slot, pass, passes, IsIdle, IsOwed, owed, by_rows, of_epoch, IsPart, AreRows, IsGuarded, IsForgetful};
ghost use Rattle.hb_rules.specs.Turns.{IsPlain, InTurn};
ghost use Rattle.hb_rules.specs.Tested.{IsTested};
ghost use Rattle.hb_rules.specs.Same.{AreSame};
ghost use Rattle.hb_rules.specs.Parts.{in_broadcast, heard_in_broadcast, in_agreement, read_in_agreement, heard_in_agreement, in_epoch, heard_in_epoch};
ghost use Rattle.hb_rules.specs.Broadcast.{MayBroadcast};
ghost use Rattle.hb_rules.specs.BroadcastRows.{broadcast_rows};
ghost use Rattle.hb_rules.specs.Agreement.{MayAgree};
ghost use Rattle.hb_rules.specs.AgreementRows.{agreement_rows};
ghost use Rattle.hb_rules.specs.Owing.{broadcast_slots, agreement_slots, lane_slots, desk_slots};
ghost use Rattle.hb_rules.specs.Desk.{MayAtDesk};
ghost use Rattle.hb_rules.specs.DeskRows.{desk_rows};
ghost use Rattle.hb_rules.specs.Rules.{MayCast};
ghost use Rattle.hb_rules.specs.Terms.{is_proper, terms_of, AreHeardSpelled, AreSpelled, AreAmong, AreLawful};

/// What is owed. One list is owed, and where each slot's vote fills it, so many passes as there are slots give it. Where
/// nothing is owed, more passes add nothing, and nothing is owed once what was heard is forgotten. Slots whose choice does
/// not look at what was cast owe nothing after one pass, whatever is cast later, and their votes come before those of the
/// slots behind them. Own votes and hearings that agree in the part that slots look at make the same owed, and what is
/// owed is of the part that slots make. Own votes that no test tells apart make the same owed of slots that look at them by
/// tests alone.
pub fn slot_laws()
    ensures settled { (slots : List (Slot Vote Hearing)) (own : List Vote) (heard : List Hearing) (k m : ℕ) → k ≤ m
        → IsIdle slots (own ++ passes k slots own heard) heard → passes m slots own heard ≡ passes k slots own heard }
    ensures unique { (slots : List (Slot Vote Hearing)) (own : List Vote) (heard : List Hearing) (votes others : List Vote)
        → IsOwed slots own heard votes → IsOwed slots own heard others → votes ≡ others }
    ensures nothing { (slots : List (Slot Vote Hearing)) (own : List Vote) (heard : List Hearing)
        → IsIdle slots own heard → IsOwed slots own heard [] }
    ensures both { (first second : List (Slot Vote Hearing)) (own : List Vote) (heard : List Hearing) (votes : List Vote)
        → ((more : List Vote) → IsIdle first ((own ++ pass first own heard) ++ more) heard)
        → IsOwed second (own ++ pass first own heard) heard votes → IsOwed (first ++ second) own heard (pass first own heard ++ votes) }
    ensures plain_after { (slots : List (Slot Vote Hearing)) (own : List Vote) (heard : List Hearing) → AllByRecursion IsPlain slots
        → IsIdle slots (own ++ pass slots own heard) heard }
    ensures plain_rests { (slots : List (Slot Vote Hearing)) (own more : List Vote) (heard : List Hearing) → AllByRecursion IsPlain slots
        → IsIdle slots own heard → IsIdle slots (own ++ more) heard }
    ensures plain_first { (first second : List (Slot Vote Hearing)) (own : List Vote) (heard : List Hearing) (votes : List Vote)
        → AllByRecursion IsPlain first → IsOwed second (own ++ pass first own heard) heard votes
        → IsOwed (first ++ second) own heard (pass first own heard ++ votes) }
    ensures same { (reads : Vote → Bool) (hears : Hearing → Bool) (makes : Vote → Bool) (slots : List (Slot Vote Hearing))
        → AllByRecursion (IsPart reads hears makes) slots → (own other : List Vote) (heard now : List Hearing) (votes : List Vote)
        → filter reads own ≡ filter reads other → filter hears heard ≡ filter hears now
        → IsOwed slots own heard votes → IsOwed slots other now votes }
    ensures made { (reads : Vote → Bool) (hears : Hearing → Bool) (makes : Vote → Bool) (slots : List (Slot Vote Hearing))
        → AllByRecursion (IsPart reads hears makes) slots → (own : List Vote) (heard : List Hearing) (votes : List Vote)
        → IsOwed slots own heard votes → list_all makes votes ≡ true }
    ensures owed { (slots : List (Slot Vote Hearing)) → AllByRecursion IsGuarded slots → (own : List Vote) (heard : List Hearing)
        → IsOwed slots own heard (owed slots own heard) }
    ensures owed_rests { (slots : List (Slot Vote Hearing)) → AllByRecursion IsGuarded slots → (own : List Vote) (heard : List Hearing)
        → owed slots (own ++ owed slots own heard) heard ≡ [] }
    ensures owed_same { (slots : List (Slot Vote Hearing)) → AllByRecursion IsTested slots → (own other : List Vote) (heard : List Hearing)
        → AreSame own other → owed slots own heard ≡ owed slots other heard }
    ensures owed_forgets { (slots : List (Slot Vote Hearing)) → AllByRecursion IsGuarded slots → AllByRecursion IsForgetful slots
        → (own : List Vote) (heard : List Hearing) → owed slots own heard ≡ [] → owed slots own [] ≡ [] }
    ensures forgets { (slots : List (Slot Vote Hearing)) → AllByRecursion IsForgetful slots → (own : List Vote) (heard : List Hearing)
        → IsIdle slots own heard → IsIdle slots own [] }
{}

/// What one hearing of epoch e makes owed of the slots of all epochs, where nothing was owed before, the slots of each
/// epoch look at votes and hearings of that epoch alone, and no other epoch looks at the hearing: what it makes owed of the
/// slots of e. Where the rows are those of two parts and the slots of the first are plain, that is one pass over the first
/// part's slots of e, and then what is owed of the second part's. A slot that looks at a part looks at any wider part.
pub fn row_laws()
    ensures by_epoch { (reads : ℕ → Vote → Bool) (hears : ℕ → Hearing → Bool) (makes : ℕ → Vote → Bool) (rows : List (ℕ → List (Slot Vote Hearing)))
        → AreRows reads hears makes rows → ((j k : ℕ) (vote : Vote) → j ≢ k → makes j vote ≡ true → reads k vote ≡ false)
        → (n e : ℕ) (own : List Vote) (heard : List Hearing) (h : Hearing) (votes : List Vote) → e < n → ((k : ℕ) → k ≢ e → hears k h ≡ false)
        → IsIdle (by_rows n rows) own heard
        → IsOwed (of_epoch e rows) own (heard ++ h ∷ []) votes → IsOwed (by_rows n rows) own (heard ++ h ∷ []) votes }
    ensures by_both { (reads : ℕ → Vote → Bool) (hears : ℕ → Hearing → Bool) (makes : ℕ → Vote → Bool) (first second : List (ℕ → List (Slot Vote Hearing)))
        → AreRows reads hears makes (first ++ second) → AllByRecursion (λ row. (k : ℕ) → AllByRecursion IsPlain (row k)) first
        → ((j k : ℕ) (vote : Vote) → j ≢ k → makes j vote ≡ true → reads k vote ≡ false)
        → (n e : ℕ) (own : List Vote) (heard : List Hearing) (h : Hearing) (votes : List Vote) → e < n → ((k : ℕ) → k ≢ e → hears k h ≡ false)
        → IsIdle (by_rows n (first ++ second)) own heard
        → IsOwed (of_epoch e second) (own ++ pass (of_epoch e first) own (heard ++ h ∷ [])) (heard ++ h ∷ []) votes
        → IsOwed (by_rows n (first ++ second)) own (heard ++ h ∷ []) (pass (of_epoch e first) own (heard ++ h ∷ []) ++ votes) }
    ensures idle { (n : ℕ) (rows : List (ℕ → List (Slot Vote Hearing))) (own : List Vote) (heard : List Hearing)
        → IsIdle (by_rows n rows) own heard → (e : ℕ) → e < n → IsIdle (of_epoch e rows) own heard }
    ensures wider { (reads wide : Vote → Bool) (hears loud : Hearing → Bool) (makes more : Vote → Bool) (slot : Slot Vote Hearing)
        → ((vote : Vote) → reads vote ≡ true → wide vote ≡ true) → ((h : Hearing) → hears h ≡ true → loud h ≡ true)
        → ((vote : Vote) → makes vote ≡ true → more vote ≡ true) → IsPart reads hears makes slot → IsPart wide loud more slot }
{}

/// The slots of lane j of node i in the broadcast. Those of an epoch look at votes and hearings of its broadcast alone, and
/// make votes of it; the vote of each fills it, and what fills it is not undone; a slot that makes nothing of what was
/// heard makes nothing where nothing is heard; own votes count by tests alone, and for no choice. So one pass rests, and its
/// votes are what is owed. Where what was heard has spellings, these votes may be cast one after another by all that is
/// heard, now or later, and have spellings.
pub fn broadcast_slot_laws()
    ensures parts { (c : Numbers) (i j : ℕ) → AreRows in_broadcast heard_in_broadcast in_broadcast (broadcast_rows c i j) }
    ensures guarded { (c : Numbers) (i j : ℕ) → AllByRecursion (λ row. (e : ℕ) → AllByRecursion IsGuarded (row e)) (broadcast_rows c i j) }
    ensures forgetful { (c : Numbers) (i j : ℕ) → AllByRecursion (λ row. (e : ℕ) → AllByRecursion IsForgetful (row e)) (broadcast_rows c i j) }
    ensures tested { (c : Numbers) (i j : ℕ) → AllByRecursion (λ row. (e : ℕ) → AllByRecursion IsTested (row e)) (broadcast_rows c i j) }
    ensures plain { (c : Numbers) (i j : ℕ) → AllByRecursion (λ row. (e : ℕ) → AllByRecursion IsPlain (row e)) (broadcast_rows c i j) }
    ensures rests { (c : Numbers) (i j e : ℕ) (own : List Vote) (heard : List Hearing)
        → IsIdle (broadcast_slots c i j e) (own ++ pass (broadcast_slots c i j e) own heard) heard }
    ensures owed { (c : Numbers) (i j e : ℕ) (own : List Vote) (heard : List Hearing)
        → IsOwed (broadcast_slots c i j e) own heard (pass (broadcast_slots c i j e) own heard) }
    ensures in_turn { (c : Numbers) → AreSound c → (i j e : ℕ) (own : List Vote) (some all : List Hearing) → AreHeardSpelled c some → AreAmong some all
        → InTurn (λ own vote. MayBroadcast c i j own all vote) own (pass (broadcast_slots c i j e) own some) }
    ensures spelled { (c : Numbers) → AreSound c → (i j e : ℕ) (own : List Vote) (heard : List Hearing) → AreHeardSpelled c heard
        → AreSpelled c (pass (broadcast_slots c i j e) own heard) }
{}

/// The slots of lane j of node i in the agreement, by both versions of the rules. Those of an epoch look at votes of its
/// agreement and its delivery, and at hearings of its agreement and NoMore, and make votes of it; the vote of each fills
/// it, and what fills it is not undone; a slot that makes nothing of what was heard makes nothing where nothing is heard;
/// own votes count by tests alone. So one list is owed. It may be cast one vote after another by all that is heard, now or
/// later, where what was heard has spellings; and in an epoch of the run it has spellings.
pub fn agreement_slot_laws()
    ensures parts { (c : Numbers) (i j : ℕ) → AreRows read_in_agreement heard_in_agreement in_agreement (agreement_rows c i j) }
    ensures guarded { (c : Numbers) (i j : ℕ) → AllByRecursion (λ row. (e : ℕ) → AllByRecursion IsGuarded (row e)) (agreement_rows c i j) }
    ensures forgetful { (c : Numbers) (i j : ℕ) → AllByRecursion (λ row. (e : ℕ) → AllByRecursion IsForgetful (row e)) (agreement_rows c i j) }
    ensures tested { (c : Numbers) (i j : ℕ) → AllByRecursion (λ row. (e : ℕ) → AllByRecursion IsTested (row e)) (agreement_rows c i j) }
    ensures owed { (c : Numbers) (i j e : ℕ) (own : List Vote) (heard : List Hearing)
        → IsOwed (agreement_slots c i j e) own heard (owed (agreement_slots c i j e) own heard) }
    ensures in_turn { (c : Numbers) → AreSound c → (i j e : ℕ) (own : List Vote) (some all : List Hearing) (votes : List Vote)
        → AreHeardSpelled c some → AreAmong some all → IsOwed (agreement_slots c i j e) own some votes
        → InTurn (λ own vote. MayAgree c i j own all vote) own votes }
    ensures spelled { (c : Numbers) → AreSound c → (i j e : ℕ) → i < c.n → e < c.epochs → (own : List Vote) (heard : List Hearing) (votes : List Vote)
        → IsOwed (agreement_slots c i j e) own heard votes → AreSpelled c votes }
{}

/// The slots of lane j of node i, of its broadcast and its agreement in all epochs. Those of an epoch look at its votes and
/// hearings alone. So what one hearing makes owed, where nothing was owed before, is one pass over the broadcast's slots of
/// its epoch, and then what the agreement's slots of that epoch owe. The vote of each slot fills it, and what fills it is
/// not undone; a slot that makes nothing of what was heard makes nothing where nothing is heard; own votes count by tests
/// alone. So one list is owed, none where nothing was cast and heard; and where what was heard has spellings it may be cast
/// one vote after another by all that is heard, now or later, and has spellings.
pub fn lane_slot_laws()
    ensures parts { (c : Numbers) (i j : ℕ) → AreRows in_epoch heard_in_epoch in_epoch (broadcast_rows c i j ++ agreement_rows c i j) }
    ensures hears { (c : Numbers) (i j : ℕ) (own : List Vote) (heard : List Hearing) (h : Hearing) (votes : List Vote) → epoch_of h.vote < c.epochs
        → IsIdle (lane_slots c i j) own heard
        → IsOwed (agreement_slots c i j (epoch_of h.vote)) (own ++ pass (broadcast_slots c i j (epoch_of h.vote)) own (heard ++ h ∷ [])) (heard ++ h ∷ []) votes
        → IsOwed (lane_slots c i j) own (heard ++ h ∷ []) (pass (broadcast_slots c i j (epoch_of h.vote)) own (heard ++ h ∷ []) ++ votes) }
    ensures starts { (c : Numbers) (i j : ℕ) → IsIdle (lane_slots c i j) [] [] }
    ensures guarded { (c : Numbers) (i j : ℕ) → AllByRecursion IsGuarded (lane_slots c i j) }
    ensures forgetful { (c : Numbers) (i j : ℕ) → AllByRecursion IsForgetful (lane_slots c i j) }
    ensures tested { (c : Numbers) (i j : ℕ) → AllByRecursion IsTested (lane_slots c i j) }
    ensures owed { (c : Numbers) (i j : ℕ) (own : List Vote) (heard : List Hearing)
        → IsOwed (lane_slots c i j) own heard (owed (lane_slots c i j) own heard) }
    ensures in_turn { (c : Numbers) → AreSound c → (i j : ℕ) → j < c.n → (own : List Vote) (some all : List Hearing) (votes : List Vote)
        → AreHeardSpelled c some → AreAmong some all → IsOwed (lane_slots c i j) own some votes
        → InTurn (λ own vote. MayCast c i j own all vote) own votes }
    ensures spelled { (c : Numbers) → AreSound c → (i j : ℕ) → i < c.n → (own : List Vote) (heard : List Hearing) (votes : List Vote)
        → AreHeardSpelled c heard → IsOwed (lane_slots c i j) own heard votes → AreSpelled c votes }
{}

/// The slots of a desk at whose node transactions were submitted. The vote of each fills it, and what fills it is not
/// undone; a slot that makes nothing of what was heard makes nothing where nothing is heard; own votes count by tests alone.
/// So one list is owed. It may be cast one vote after another by all that is heard, now or later; each proposal has the
/// value that the pool gives by the votes before it; and where what was heard has spellings, and each transaction is one
/// that may be submitted, it has spellings.
pub fn desk_slot_laws()
    ensures guarded { (c : Numbers) (submitted : List (List ℕ)) → AllByRecursion (λ row. (e : ℕ) → AllByRecursion IsGuarded (row e)) (desk_rows c submitted) }
    ensures forgetful { (c : Numbers) → AreSound c → (submitted : List (List ℕ))
        → AllByRecursion (λ row. (e : ℕ) → AllByRecursion IsForgetful (row e)) (desk_rows c submitted) }
    ensures tested { (c : Numbers) (submitted : List (List ℕ)) → AllByRecursion (λ row. (e : ℕ) → AllByRecursion IsTested (row e)) (desk_rows c submitted) }
    ensures owed { (c : Numbers) (submitted : List (List ℕ)) (own : List Vote) (heard : List Hearing)
        → IsOwed (desk_slots c submitted) own heard (owed (desk_slots c submitted) own heard) }
    ensures in_turn { (c : Numbers) (submitted : List (List ℕ)) (own : List Vote) (some all : List Hearing) (votes : List Vote) → AreAmong some all
        → IsOwed (desk_slots c submitted) own some votes → InTurn (λ own vote. MayAtDesk c own all vote) own votes }
    ensures proper { (c : Numbers) (submitted : List (List ℕ)) (own : List Vote) (heard : List Hearing) (votes : List Vote)
        → IsOwed (desk_slots c submitted) own heard votes → InTurn (λ own vote. is_proper c submitted own vote ≡ true) own votes }
    ensures spelled { (c : Numbers) → AreSound c → (submitted : List (List ℕ)) → AllByRecursion IsTransaction submitted → AllByRecursion AreBytes submitted
        → (own : List Vote) (heard : List Hearing) (votes : List Vote) → AreHeardSpelled c heard
        → IsOwed (desk_slots c submitted) own heard votes → AreSpelled c votes }
{}

/// What each actor of a node of the run owes is lawful by its terms, where each transaction is one that may be submitted.
pub fn term_laws()
    ensures { (c : Numbers) → AreSound c → (submitted : List (List ℕ)) → AllByRecursion IsTransaction submitted → AllByRecursion AreBytes submitted
        → (i x : ℕ) → i < c.n → AreLawful (terms_of c submitted i x) }
{}
