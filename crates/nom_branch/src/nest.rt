//! Tuples, and their nested form.
ghost use Rattle.std.specs.Prelude.{◌≡◌};

use nom_internal::flat::One;

/// Members, and one more after them.
#[derive(Drop)]
pub struct More<M, A> {
    pub others: M,
    pub member: A,
}

// By width.
pub type Two<A, B> = More<One<A>, B>;

pub type Three<A, B, C> = More<Two<A, B>, C>;

pub type Four<A, B, C, D> = More<Three<A, B, C>, D>;

pub type Five<A, B, C, D, E> = More<Four<A, B, C, D>, E>;

pub type Six<A, B, C, D, E, F> = More<Five<A, B, C, D, E>, F>;

pub type Seven<A, B, C, D, E, F, G> = More<Six<A, B, C, D, E, F>, G>;

pub type Eight<A, B, C, D, E, F, G, H> = More<Seven<A, B, C, D, E, F, G>, H>;

/// A tuple of 2 to 8, nested as its last element and the elements before it.
pub trait Nests {
    type Nested;

    ghost nested: { Self → Self.Nested };

    fn nested(self) -> Self::Nested
        ensures { result ≡ nested self };
}

impl<A, B> Nests for (A, B) {
    type Nested = Two<A, B>;

    ghost nested = { λ p. record { others = record { member = p.0 }; member = p.1 } };

    #[inline(always)]
    fn nested(self) -> Self::Nested {
        let (a, b) = self;
        More {
            others: One { member: a },
            member: b,
        }
    }
}

impl<A, B, C> Nests for (A, B, C) {
    type Nested = Three<A, B, C>;

    ghost nested = { λ p. record { others = record { others = record { member = p.0 }; member = p.1 }; member = p.2 } };

    #[inline(always)]
    fn nested(self) -> Self::Nested {
        let (a, b, c) = self;
        More {
            others: More {
                others: One { member: a },
                member: b,
            },
            member: c,
        }
    }
}

impl<A, B, C, D> Nests for (A, B, C, D) {
    type Nested = Four<A, B, C, D>;

    ghost nested = { λ p. record {
      others = record { others = record { others = record { member = p.0 }; member = p.1 }; member = p.2 };
      member = p.3;
    } };

    #[inline(always)]
    fn nested(self) -> Self::Nested {
        let (a, b, c, d) = self;
        More {
            others: More {
                others: More {
                    others: One { member: a },
                    member: b,
                },
                member: c,
            },
            member: d,
        }
    }
}

impl<A, B, C, D, E> Nests for (A, B, C, D, E) {
    type Nested = Five<A, B, C, D, E>;

    ghost nested = { λ p. record {
      others = record {
        others = record {
          others = record { others = record { member = p.0 }; member = p.1 };
          member = p.2;
        };
        member = p.3;
      };
      member = p.4;
    } };

    #[inline(always)]
    fn nested(self) -> Self::Nested {
        let (a, b, c, d, e) = self;
        More {
            others: More {
                others: More {
                    others: More {
                        others: One { member: a },
                        member: b,
                    },
                    member: c,
                },
                member: d,
            },
            member: e,
        }
    }
}

impl<A, B, C, D, E, F> Nests for (A, B, C, D, E, F) {
    type Nested = Six<A, B, C, D, E, F>;

    ghost nested = { λ p. record {
      others = record {
        others = record {
          others = record {
            others = record {
              others = record {
                member = p.0;
              };
              member = p.1;
            };
            member = p.2;
          };
          member = p.3;
        };
        member = p.4;
      };
      member = p.5;
    } };

    #[inline(always)]
    fn nested(self) -> Self::Nested {
        let (a, b, c, d, e, f) = self;
        More {
            others: More {
                others: More {
                    others: More {
                        others: More {
                            others: One { member: a },
                            member: b,
                        },
                        member: c,
                    },
                    member: d,
                },
                member: e,
            },
            member: f,
        }
    }
}

impl<A, B, C, D, E, F, G> Nests for (A, B, C, D, E, F, G) {
    type Nested = Seven<A, B, C, D, E, F, G>;

    ghost nested = { λ p. record {
      others = record {
        others = record {
          others = record {
            others = record {
              others = record {
                others =
                    record { member = p.0 };
                member = p.1;
              };
              member = p.2;
            };
            member = p.3;
          };
          member = p.4;
        };
        member = p.5;
      };
      member = p.6;
    } };

    #[inline(always)]
    fn nested(self) -> Self::Nested {
        let (a, b, c, d, e, f, g) = self;
        More {
            others: More {
                others: More {
                    others: More {
                        others: More {
                            others: More {
                                others: One { member: a },
                                member: b,
                            },
                            member: c,
                        },
                        member: d,
                    },
                    member: e,
                },
                member: f,
            },
            member: g,
        }
    }
}

impl<A, B, C, D, E, F, G, H> Nests for (A, B, C, D, E, F, G, H) {
    type Nested = Eight<A, B, C, D, E, F, G, H>;

    ghost nested = { λ p. record {
      others = record {
        others = record {
          others = record {
            others = record {
              others = record {
                others =
                    record { others = record { member = p.0 }; member = p.1 };
                member = p.2;
              };
              member = p.3;
            };
            member = p.4;
          };
          member = p.5;
        };
        member = p.6;
      };
      member = p.7;
    } };

    #[inline(always)]
    fn nested(self) -> Self::Nested {
        let (a, b, c, d, e, f, g, h) = self;
        More {
            others: More {
                others: More {
                    others: More {
                        others: More {
                            others: More {
                                others: More {
                                    others: One { member: a },
                                    member: b,
                                },
                                member: c,
                            },
                            member: d,
                        },
                        member: e,
                    },
                    member: f,
                },
                member: g,
            },
            member: h,
        }
    }
}
