//! How class files are run, by the options of `jvm run`.

ghost use Rattle.std.specs.Prelude.{◌≡◌, ◌≤◌, IfSome, MatchOption, unwrap_or};
ghost use Rattle.command_line.specs.Policies.{GoTogether, IsOfPolicy, policy_of};

use crate::options::USUAL_BUDGET;

/// The budget of a run of which none is asked for, in events: as many as a schedule may have.
const NO_BUDGET: u32 = u32::MAX;

/// How many events a turn of a rotation has at most, unless another number is asked for.
const USUAL_TURN: u32 = 1_000;

/// By which rule one worker gives the threads turns.
#[derive(Clone, Copy)]
pub enum PolicyName {
    /// Turns in rotation, of lengths that are drawn by a seed.
    Mixed,
    /// Events of threads that are drawn by a seed.
    Random,
    /// Turns in rotation, of up to so many events.
    Rotation,
}

/// Two options that don't go together, as help tells them.
pub(crate) type Clash = (&'static str, &'static str);

/// How class files are run: what is asked for, each number in its range, and `None` for the usual.
#[derive(Clone, Copy)]
pub struct RunOptions {
    /// How many workers run side by side, and `None` where one goes by a policy.
    pub workers: Option<u32>,
    /// How many events there may be.
    pub budget: Option<u32>,
    /// How many events of a thread are done in a row: in a turn of a rotation, or by a worker while it holds the lock.
    pub quantum: Option<u32>,
    /// The seed of a policy, and `None` where it is to be drawn.
    pub seed: Option<u64>,
    /// The policy of one worker.
    pub policy: Option<PolicyName>,
    pub ghost workers_fit: { (1 ≤ unwrap_or workers 1) × (unwrap_or workers 1 ≤ 64) },
    pub ghost quantum_fits: { 1 ≤ unwrap_or quantum 1 },
}

impl RunOptions {
    /// How many workers run side by side, from 1 to 64, and `None` where one goes by a policy.
    pub fn workers(&self) -> Option<u32>
        ensures value { result ≡ self.now.workers }
        ensures fits { IfSome result (λ workers. (1 ≤ workers) × (workers ≤ 64)) }
    {
        self.workers
    }

    /// The budget, in events.
    pub fn budget(&self) -> u32
        ensures { result ≡ unwrap_or self.now.budget 4294967295 }
    {
        self.budget.unwrap_or(NO_BUDGET)
    }

    /// The budget of each run of a sweep, in events.
    pub fn sweep_budget(&self) -> u32
        ensures { result ≡ unwrap_or self.now.budget 10000000 }
    {
        self.budget.unwrap_or(USUAL_BUDGET)
    }

    /// How many events of a thread a worker does in a row while it holds the lock. It is at least 1.
    pub fn workers_quantum(&self) -> u32
        ensures value { result ≡ unwrap_or self.now.quantum 1 }
        ensures fits { 1 ≤ result }
    {
        self.quantum.unwrap_or(1)
    }

    /// How many events a turn of a rotation has at most. It is at least 1.
    pub fn rotation_quantum(&self) -> u32
        ensures value { result ≡ unwrap_or self.now.quantum 1000 }
        ensures fits { 1 ≤ result }
    {
        match self.quantum {
            Some(quantum) => quantum,
            None => USUAL_TURN,
        }
    }

    /// The policy of one worker: where none is named, a quantum asks for a rotation.
    pub fn policy(&self) -> PolicyName
        ensures { result ≡ policy_of self.now.quantum self.now.policy }
    {
        match self.policy {
            Some(name) => name,
            None => self.usual_policy(),
        }
    }

    /// The policy where none is named.
    fn usual_policy(&self) -> PolicyName
        ensures { result ≡ policy_of self.now.quantum None }
    {
        match self.quantum {
            Some(_) => PolicyName::Rotation,
            None => PolicyName::Mixed,
        }
    }

    /// Two of the options that don't go together, if there are such.
    pub(crate) fn clash(&self) -> Option<Clash>
        ensures { MatchOption result (GoTogether self.now.workers self.now.quantum self.now.seed self.now.policy)
            (λ _. GoTogether self.now.workers self.now.quantum self.now.seed self.now.policy → ⊥) }
    {
        match self.workers {
            Some(_) => self.clash_with_workers(),
            None => self.clash_with_policy(),
        }
    }

    /// An option that doesn't go with workers.
    fn clash_with_workers(&self) -> Option<Clash>
        ensures { MatchOption result ((self.now.seed ≡ None) × (self.now.policy ≡ None))
            (λ _. (self.now.seed ≡ None) × (self.now.policy ≡ None) → ⊥) }
    {
        if self.seed.is_some() {
            Some(("--seed <NUMBER>", "--workers <NUMBER>"))
        } else if self.policy.is_some() {
            Some(("--policy <POLICY>", "--workers <NUMBER>"))
        } else {
            None
        }
    }

    /// An option that doesn't go with the policy of one worker.
    fn clash_with_policy(&self) -> Option<Clash>
        ensures { MatchOption result
            (IsOfPolicy (policy_of self.now.quantum self.now.policy) self.now.quantum self.now.seed)
            (λ _. IsOfPolicy (policy_of self.now.quantum self.now.policy) self.now.quantum self.now.seed → ⊥) }
    {
        match self.policy() {
            PolicyName::Mixed => self.clash_of_quantum("--policy mixed"),
            PolicyName::Random => self.clash_of_quantum("--policy random"),
            PolicyName::Rotation => self.clash_of_seed(),
        }
    }

    /// A quantum beside a policy that has none.
    fn clash_of_quantum(&self, policy: &'static str) -> Option<Clash>
        ensures { MatchOption result (self.now.quantum ≡ None) (λ _. self.now.quantum ≡ None → ⊥) }
    {
        match self.quantum {
            Some(_) => Some(("--quantum <NUMBER>", policy)),
            None => None,
        }
    }

    /// A seed beside a rotation.
    fn clash_of_seed(&self) -> Option<Clash>
        ensures { MatchOption result (self.now.seed ≡ None) (λ _. self.now.seed ≡ None → ⊥) }
    {
        match (self.seed, self.policy) {
            (Some(_), Some(_)) => Some(("--seed <NUMBER>", "--policy rotation")),
            (Some(_), None) => Some(("--seed <NUMBER>", "--quantum <NUMBER>")),
            (None, _) => None,
        }
    }
}
