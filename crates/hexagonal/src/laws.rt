// What is proved of the house rules.
ghost use Rattle.hexagonal.specs.Hexagonal.{hexagonal};
ghost use Rattle.hexagonal.specs.House.{HouseRules};

/// Each rule of the house holds at each channel, and every state that none of them names stays.
pub fn house_rules_hold() -> u8
    ensures { HouseRules hexagonal.house }
{
    0
}
