// The tables of the default configuration, three rows of four numbers each: by the rating before in the transitions,
// and in the costs by learning, review and relearning. A function gives each, not the constant alone: only a function
// has a contract to say that its digits are the definition's.
ghost use Rattle.std.specs.Prelude.{◌≡◌};
ghost use Rattle.model.specs.Defaults as Defaults;

const LEARNING_STEP_TRANSITIONS: [f32; 12] = [
    0.3686, 0.0628, 0.5108, 0.0577, 0.0442, 0.4553, 0.4457, 0.0549, 0.0519, 0.047, 0.8462, 0.055,
];

const RELEARNING_STEP_TRANSITIONS: [f32; 12] = [
    0.2157, 0.0643, 0.6595, 0.0604, 0.05, 0.4638, 0.4475, 0.0387, 0.1057, 0.1434, 0.7266, 0.0244,
];

const STATE_RATING_COSTS: [f32; 12] = [
    19.58, 18.79, 13.78, 10.71, 19.38, 17.59, 12.38, 8.94, 16.44, 15.25, 12.32, 8.03,
];

const FIRST_RATING_PROB: [f32; 4] = [0.24, 0.094, 0.495, 0.171];

const REVIEW_RATING_PROB: [f32; 3] = [0.224, 0.631, 0.145];

pub fn learning_step_transitions() -> [f32; 12]
    ensures { result ≡ Defaults.learning_step_transitions }
{
    LEARNING_STEP_TRANSITIONS
}

pub fn relearning_step_transitions() -> [f32; 12]
    ensures { result ≡ Defaults.relearning_step_transitions }
{
    RELEARNING_STEP_TRANSITIONS
}

pub fn state_rating_costs() -> [f32; 12]
    ensures { result ≡ Defaults.state_rating_costs }
{
    STATE_RATING_COSTS
}

pub fn first_rating_prob() -> [f32; 4]
    ensures { result ≡ Defaults.first_rating_prob }
{
    FIRST_RATING_PROB
}

pub fn review_rating_prob() -> [f32; 3]
    ensures { result ≡ Defaults.review_rating_prob }
{
    REVIEW_RATING_PROB
}
