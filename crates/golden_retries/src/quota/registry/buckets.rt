//! Single buckets, step by step.
ghost use Rattle.std.specs.Prelude.{◌≤◌, IfSome};

use crate::quota::registry::lines;
use anyhow::Result;
use retry_quota::{BucketTerms, Permit, TokenBucket};
use smithy_types::ErrorKind;

/// How a bucket opens.
#[derive(Clone, Copy)]
enum Opening {
    /// With this many tokens.
    Quota(u64),
    /// Without a limit.
    Unlimited,
    /// With these terms.
    Terms(BucketTerms),
}

/// A step on a bucket. A permit that is released or forgotten is the last that was granted.
#[derive(Clone, Copy, Debug)]
enum Step {
    /// After a failure of this kind, at this second.
    Acquire(ErrorKind, u64),
    Release,
    Forget,
    Reward,
    Regenerate,
    IsFull,
    IsEmpty,
}

/// What a step answers.
#[derive(Clone, Copy, Debug)]
enum Answer {
    /// Nothing is answered.
    Done,
    /// A permit of this bucket for so many tokens.
    Permit { bucket: u32, amount: u32 },
    /// There is no permit.
    NoPermit,
    /// A question's answer.
    Is(bool),
}

/// A bucket, and the permit that it granted last.
#[derive(Drop)]
struct Worked {
    bucket: TokenBucket,
    permit: Option<Permit>,
}

impl Worked {
    fn open(opening: Opening) -> Result<Worked> {
        Ok(Worked {
            bucket: opened(opening)?,
            permit: None,
        })
    }

    fn step(&mut self, step: Step) -> Answer {
        match step {
            Step::Acquire(kind, second) => self.acquire(kind, second),
            Step::Release => self.release(),
            Step::Forget => self.forget(),
            Step::Reward => self.reward(),
            Step::Regenerate => self.regenerate(),
            Step::IsFull => Answer::Is(self.bucket.is_full()),
            Step::IsEmpty => Answer::Is(self.bucket.is_empty()),
        }
    }

    fn acquire(&mut self, kind: ErrorKind, second: u64) -> Answer {
        let Some(permit) = self.bucket.acquire(kind, second) else {
            return Answer::NoPermit;
        };
        let answer = Answer::Permit {
            bucket: permit.bucket,
            amount: permit.amount,
        };
        self.permit = Some(permit);
        answer
    }

    // The last permit, where the bucket holds as much.
    fn held_permit(&mut self) -> Option<Permit>
        ensures { IfSome result (λ p. p.amount ≤ self.new.bucket.held) }
    {
        let Some(permit) = self.permit.take() else {
            return None;
        };
        if permit.amount as u64 > self.bucket.sums().held {
            return None;
        }
        Some(permit)
    }

    fn release(&mut self) -> Answer {
        match self.held_permit() {
            Some(permit) => {
                self.bucket.release(permit);
                Answer::Done
            }
            None => Answer::NoPermit,
        }
    }

    fn forget(&mut self) -> Answer {
        match self.held_permit() {
            Some(permit) => {
                self.bucket.forget(permit);
                Answer::Done
            }
            None => Answer::NoPermit,
        }
    }

    fn reward(&mut self) -> Answer {
        self.bucket.reward_success();
        Answer::Done
    }

    fn regenerate(&mut self) -> Answer {
        self.bucket.regenerate_a_token();
        Answer::Done
    }
}

fn opened(opening: Opening) -> Result<TokenBucket> {
    match opening {
        Opening::Quota(quota) => Ok(TokenBucket::new(quota)?),
        Opening::Unlimited => Ok(TokenBucket::unlimited()),
        Opening::Terms(terms) => Ok(TokenBucket::with_terms(terms)),
    }
}

/// A bucket, and the steps on it.
struct Row {
    name: &'static str,
    opening: Opening,
    steps: &'static [Step],
}

/// The default terms, but for a capacity of 10 tokens.
const TEN: BucketTerms = BucketTerms {
    capacity: 10,
    retry_cost: 5,
    throttling_retry_cost: 5,
    timeout_retry_cost: 10,
    success_reward: 0,
    refill_rate: 0,
};

/// Ten tokens, all of which each retry costs.
const ONE_RETRY: BucketTerms = BucketTerms {
    retry_cost: 10,
    throttling_retry_cost: 10,
    ..TEN
};

/// A hundred tokens, all of which a retry of a transient failure costs.
const HUNDRED: BucketTerms = BucketTerms {
    capacity: 100,
    timeout_retry_cost: 100,
    ..TEN
};

/// All tokens of such a bucket are spent.
const SPENT: Step = Step::Acquire(ErrorKind::TransientError, 0);

/// All tokens are spent, and then a success is rewarded.
const REWARDED: &[Step] = &[SPENT, Step::Reward, Step::IsFull];

const ROWS: &[Row] = &[
    Row {
        name: "a transient failure costs more than throttling",
        opening: Opening::Quota(12),
        steps: &[
            Step::Acquire(ErrorKind::TransientError, 0),
            Step::Acquire(ErrorKind::ThrottlingError, 0),
        ],
    },
    Row {
        name: "a release may pass the capacity",
        opening: Opening::Terms(ONE_RETRY),
        steps: &[
            Step::Acquire(ErrorKind::ServerError, 0),
            Step::Regenerate,
            Step::Regenerate,
            Step::Regenerate,
            Step::Release,
        ],
    },
    Row {
        name: "time refills what fits and never goes back",
        opening: Opening::Terms(BucketTerms {
            refill_rate: 1500,
            ..ONE_RETRY
        }),
        steps: &[
            Step::Acquire(ErrorKind::ClientError, 0),
            Step::Acquire(ErrorKind::ClientError, 4),
            Step::Acquire(ErrorKind::ClientError, 7),
            Step::Acquire(ErrorKind::ClientError, 5),
        ],
    },
    Row {
        name: "an unlimited bucket grants at no cost",
        opening: Opening::Unlimited,
        steps: &[
            Step::Acquire(ErrorKind::ThrottlingError, 0),
            Step::Acquire(ErrorKind::TransientError, 0),
        ],
    },
    Row {
        name: "an empty bucket fills by rewards and tokens",
        opening: Opening::Terms(BucketTerms {
            success_reward: 400,
            ..TEN
        }),
        steps: &[
            Step::Acquire(ErrorKind::TransientError, 0),
            Step::Forget,
            Step::IsEmpty,
            Step::Reward,
            Step::IsEmpty,
            Step::Reward,
            Step::IsEmpty,
            Step::Reward,
            Step::IsEmpty,
            Step::IsFull,
            Step::Regenerate,
            Step::IsFull,
            Step::Regenerate,
            Step::IsFull,
            Step::Regenerate,
            Step::IsFull,
            Step::Regenerate,
            Step::IsFull,
            Step::Regenerate,
            Step::IsFull,
            Step::Regenerate,
            Step::IsFull,
            Step::Regenerate,
            Step::IsFull,
            Step::Regenerate,
            Step::IsFull,
            Step::Regenerate,
            Step::IsFull,
        ],
    },
    Row {
        name: "a fraction stops at the capacity",
        opening: Opening::Terms(BucketTerms {
            success_reward: 7000,
            refill_rate: u64::MAX,
            ..TEN
        }),
        steps: &[
            Step::Reward,
            Step::Reward,
            Step::IsFull,
            Step::Reward,
            Step::Reward,
            Step::Acquire(ErrorKind::ServerError, u64::MAX),
            Step::Acquire(ErrorKind::ServerError, 0),
            Step::Acquire(ErrorKind::ServerError, 2),
        ],
    },
    Row {
        name: "ten tokens are two grants of five, and then none",
        opening: Opening::Quota(10),
        steps: &[
            Step::Acquire(ErrorKind::ThrottlingError, 0),
            Step::Acquire(ErrorKind::ThrottlingError, 0),
            Step::Acquire(ErrorKind::ThrottlingError, 0),
        ],
    },
    Row {
        name: "rewards and seconds count together",
        opening: Opening::Terms(BucketTerms {
            success_reward: 500,
            refill_rate: 1000,
            ..HUNDRED
        }),
        steps: &[
            SPENT,
            Step::Reward,
            Step::Reward,
            Step::Acquire(ErrorKind::TransientError, 2),
        ],
    },
    Row {
        name: "a bucket is full by rewards alone",
        opening: Opening::Terms(BucketTerms {
            capacity: 2,
            retry_cost: 1,
            success_reward: 900,
            ..TEN
        }),
        steps: &[
            Step::Acquire(ErrorKind::ServerError, 0),
            Step::Acquire(ErrorKind::ServerError, 0),
            Step::IsEmpty,
            Step::Reward,
            Step::Reward,
            Step::Reward,
            Step::IsFull,
            Step::IsEmpty,
        ],
    },
    Row {
        name: "half a token is none, and two halves are one",
        opening: Opening::Terms(BucketTerms {
            success_reward: 500,
            ..ONE_RETRY
        }),
        steps: &[
            Step::Acquire(ErrorKind::ServerError, 0),
            Step::Reward,
            Step::IsEmpty,
            Step::Reward,
            Step::IsEmpty,
        ],
    },
    Row {
        name: "neither rewards nor seconds pass the capacity",
        opening: Opening::Terms(BucketTerms {
            timeout_retry_cost: 11,
            success_reward: 2000,
            refill_rate: 50_000,
            ..TEN
        }),
        steps: &[
            Step::Acquire(ErrorKind::ServerError, 0),
            Step::Reward,
            Step::Reward,
            Step::Reward,
            Step::Reward,
            Step::Reward,
            Step::Reward,
            Step::Acquire(ErrorKind::TransientError, 100),
        ],
    },
];

/// Rewards in thousandths of a token, one of which an empty bucket gets.
const REWARDS: &[u64] = &[700, 1000, 2300, 5800, 10_000];

/// What comes into an empty bucket each second, in thousandths of a token, and the second of the
/// next acquire.
const REFILLS: &[(u64, u64)] = &[(1000, 5), (10_000, 2), (1, 1100), (1, 1200), (1, 500)];

/// Prints each row's steps with what they answer and the bucket behind them, and then what a reward
/// and a time make of an empty bucket.
pub fn print(rt: &HostRuntime) -> Result<()> {
    for row in ROWS {
        println!(rt; "{}", row.name)?;
        print_steps(rt, Worked::open(row.opening)?, row.steps)?;
    }
    print_rewards(rt)?;
    print_refills(rt)
}

fn print_rewards(rt: &HostRuntime) -> Result<()> {
    println!(rt; "a fraction gives its whole tokens at the next look")?;
    for reward in REWARDS {
        let terms = BucketTerms {
            success_reward: *reward,
            ..TEN
        };
        print_steps(rt, Worked::open(Opening::Terms(terms))?, REWARDED)?;
    }
    Ok(())
}

fn print_refills(rt: &HostRuntime) -> Result<()> {
    println!(rt; "seconds refill an empty bucket at its rate")?;
    for (rate, second) in REFILLS {
        let terms = BucketTerms {
            refill_rate: *rate,
            ..HUNDRED
        };
        let steps = [SPENT, Step::Acquire(ErrorKind::TransientError, *second)];
        print_steps(rt, Worked::open(Opening::Terms(terms))?, &steps)?;
    }
    Ok(())
}

fn print_steps(rt: &HostRuntime, mut worked: Worked, steps: &[Step]) -> Result<()> {
    for step in steps {
        let answer = worked.step(*step);
        print_step(rt, *step, answer, &worked.bucket)?;
    }
    Ok(())
}

fn print_step(rt: &HostRuntime, step: Step, answer: Answer, bucket: &TokenBucket) -> Result<()> {
    let state = lines::state(rt.alloc(), bucket)?;
    println!(rt; "  {step:?}: {answer:?}; {state}")?;
    Ok(())
}
