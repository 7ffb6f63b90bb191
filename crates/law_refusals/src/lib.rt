// Every refusal by number and place, as theorems about the definitions: it is given under the condition of its row and nowhere else, and lent memory is unchanged.

#![tactic(auto)]
