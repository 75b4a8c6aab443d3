//! The law of the proxies of one end: the function has an empty body, and its clauses are the law.
ghost use Rattle.std.specs.Prelude.{◌≡◌, not, ◌&&◌, length};
ghost use Rattle.bridge_laws.specs.Counting.{one_if};
ghost use Rattle.bridge_model.specs.Answers.{proxies};
ghost use Rattle.bridge_model.specs.References.{is_held};
ghost use Rattle.bridge_model.specs.Settings.{Setting, is_own};
ghost use Rattle.bridge_model.specs.Sides.{Tables};
ghost use Rattle.table_model.specs.Bags.{how_many};
ghost use Rattle.table_model.specs.Pair.{Pair, is_pair};
ghost use Rattle.world_laws.specs.Proxies.{proxy_pairs};

/// An identity and interface has one proxy where it is the peer's and somebody holds it, and none else; and these are as many as an end counts.
pub fn an_identity_and_interface_has_at_most_one_proxy()
    ensures one { (g : Setting) (t : Tables) (p : Pair) → how_many (is_pair p) (proxy_pairs g t.holdings) ≡ one_if (not (is_own g p.oid) && is_held p.oid p.face t) }
    ensures counted { (g : Setting) (t : Tables) → length (proxy_pairs g t.holdings) ≡ proxies g t.holdings }
{}
