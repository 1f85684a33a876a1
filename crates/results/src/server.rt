// What start, publish and the writers answer.
ghost use Rattle.std.specs.Prelude.{◌≡◌};
ghost use Rattle.results.specs.Results.{start_result, publish_result, write_result};

use crate::{Published, Written};
use paper::{PublishAnswer, StartAnswer, WriteAnswer};

impl From<StartAnswer> for Published {
    ghost from_gives = { λ answer given. given ≡ start_result answer };

    fn from(answer: StartAnswer) -> Published {
        match answer {
            Ok(state) => Published {
                number: 0,
                count: state.count,
                epoch: state.epoch,
            },
            Err(refusal) => Published {
                number: refusal as u32,
                ..Published::default()
            },
        }
    }
}

impl From<PublishAnswer> for Published {
    ghost from_gives = { λ answer given. given ≡ publish_result answer };

    fn from(answer: PublishAnswer) -> Published {
        let (number, state) = match answer {
            Ok(state) => (0, state),
            Err(returned) => (returned.refusal as u32, returned.state),
        };
        Published {
            number,
            count: state.count,
            epoch: state.epoch,
        }
    }
}

impl From<WriteAnswer> for Written {
    ghost from_gives = { λ answer given. given ≡ write_result answer };

    fn from(answer: WriteAnswer) -> Written {
        match answer {
            Ok(written) => Written {
                number: 0,
                count: written.state.count,
                epoch: written.state.epoch,
                length: written.length,
            },
            Err(returned) => Written {
                number: returned.refusal as u32,
                count: returned.state.count,
                epoch: returned.state.epoch,
                length: 0,
            },
        }
    }
}
